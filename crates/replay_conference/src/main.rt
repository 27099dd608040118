// Makes conferences as the program `conference` does, and compares the files that they leave with stored answers. Standard input has a step a line, its words apart by single blanks; its first
// letter tells which. Each is printed, and behind it what came of it (oracle/conference writes the steps and the legs; some answers are wrong on purpose):
//   conference OUT LEG [LEG ...]   a conference, which prints its form
//   heard FILE BYTES CRC           whether the file has so many bytes and this CRC-32, or, with `none` behind it, is missing
//   unlink FILE
#![tactic(auto)]

ghost use Rattle.std.specs.Prelude.{◌≤◌, length};

mod file;

use std::io::Print;

// The most bytes of a step.
const ROOM: usize = 4096;

// The words behind the first.
fn operands<'a>(line: &'a [u8]) -> &'a [u8] {
    line.splitn(2, |b| *b == b' ').nth(1).unwrap_or(&[])
}

// Blanks become zero bytes.
fn part(names: &mut [u8]) {
    for b in names.iter_mut() {
        if *b == b' ' {
            *b = 0;
        }
    }
}

// These words with zero bytes between and behind them; how many bytes they have, 0 where they are too long.
fn put(words: &[u8], names: &mut [u8]) -> usize
    ensures { result ≤ length names.new }
{
    let n = words.len();
    if names.len() <= n {
        return 0;
    }
    octets::copy(words, names);
    part(&mut names[0..n]);
    n + 1
}

// A conference of these words.
fn conference(rt: &HostRuntime, words: &[u8]) {
    let mut names = [0u8; ROOM];
    let n = put(words, &mut names);
    conference_files::conference(rt, &names[0..n]);
}

// The step of a line.
fn step(rt: &HostRuntime, line: &[u8]) {
    let _ = rt.write_all(line);
    let _ = rt.write_all(b"\n");
    match line {
        [b'c', ..] => conference(rt, operands(line)),
        [b'h', ..] => file::heard(rt, operands(line)),
        [b'u', ..] => {
            let _ = files::remove(rt, operands(line));
        }
        _ => {}
    }
}

fn main(rt: HostRuntime) {
    replay::lines::each(&rt, |line| step(&rt, line));
}
