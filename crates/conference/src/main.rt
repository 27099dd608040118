// The program `conference OUT LEG [LEG ...]`: what each leg of a conference heard (change request 10), to new WAV files. Crate conference_files does the work; here are the words of the command line.
#![tactic(auto)]

ghost use Rattle.std.specs.Prelude.{◌+◌, ◌≤◌, length};

const USAGE: [u8; 51] = *b"usage: conference OUT LEG [LEG ...]  (1 to 8 legs)\n";

// The most words, the most bytes of one, and the bytes of all with a zero byte behind each.
const WORDS: usize = 9;

const LONGEST: usize = 4095;

const ROOM: usize = WORDS * (LONGEST + 1);

// Argument i and a zero byte at a place; answers the place behind them.
fn put(rt: &HostRuntime, i: usize, from: usize, names: &mut [u8]) -> usize
    requires { from + 4096 ≤ length names.old }
    ensures { result ≤ from + 4096 }
{
    let mut word = [0u8; 4096];
    let word = files::argument(rt, Some(i), b"", &mut word);
    let n = word.len().min(LONGEST);
    let at = print::put(&word[..n], from, names);
    print::put(b"\0", at, names)
}

// The first n arguments; answers how many bytes they have.
fn put_all(rt: &HostRuntime, n: usize, names: &mut [u8]) -> usize
    requires { (n ≤ 9) × (36864 ≤ length names.old) }
    ensures { result ≤ 36864 }
{
    let mut at = 0;
    for i in 0..n {
        at = put(rt, i + 1, at, names);
    }
    at
}

// A conference of the first n arguments. No option is left where there is something to do, so they are the operands.
fn run(rt: &HostRuntime, n: usize)
    requires { n ≤ 9 }
{
    let mut names = [0u8; ROOM];
    let to = put_all(rt, n, &mut names);
    conference_files::conference(rt, &names[0..to]);
}

fn main(rt: HostRuntime) {
    if files::standard_open(&rt).is_err() {
        return;
    }
    let a = files::asked(&rt, 2, WORDS);
    let usage = USAGE;
    if files::no_tables(&rt, a, b"conference", &usage) {
        return;
    }
    let done = files::answered(
        &rt,
        a,
        b"conference",
        &usage,
        b"Makes what each leg of a conference heard, the sum of all others: OUT-1.wav for the first leg, OUT-2.wav for the second, and so on,\nlinear PCM of 16 bits, one channel, 8,000 samples a second.\n\n  decode <a.call >a.samples\n  conference monday a.samples mu:b.ul c.wav\n\n  OUT         what the names of the new files begin with\n  LEG         1 to 8, each a file or a pipe:\n                printed samples, as decode and g711_leg read print them\n                a WAV file, A-law or mu-law of 8 bits or linear PCM of 16, one channel, 8,000 a second\n                a:FILE or mu:FILE, G.711 bytes of A-law or mu-law\n  --help      this text\n  --version   the version\n\nLegs may have unlike lengths: one that has ended is silent, and still hears the others. Pipes need a writer each. No file is overwritten. Where a leg is refused or a file can't be\nwritten the reason is said on standard error, and no file is left. (written (legs K) (frames N)) is printed at the end; the exit status\nis 0 in any case. Every ten minutes of sound that are done are told on standard error.\n",
    );
    if !done {
        run(&rt, a.operands.min(WORDS));
    }
}
