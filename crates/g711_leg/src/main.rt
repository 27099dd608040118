// The program `g711_leg`: a G.711 leg (change request 8; ITU-T G.711), raw or in a WAV file, to the printed form of its samples, and back. No contract can say what is read or written, so
// the work is done on lent memory, by crates leg and wav; source reads.
#![tactic(auto)]

mod reading;
mod writing;

use files::Told;
use g711::Law;
use options::Asked;
use std::fmt::InlineText;

const USAGE: [u8; 105] =
    *b"usage: g711_leg read LAW [LEG]\n       g711_leg write LAW SAMPLES LEG\n       g711_leg wav LAW SAMPLES LEG\n";

// What the first word asks for.
#[derive(Clone, Copy)]
enum Task {
    Read,
    Write,
    Wav,
}

// The samples of a whole line.
pub(crate) const SAMPLES: usize = 80;

// A form with a number on standard output, where all before it was written: its opening, the number, and what closes it.
pub(crate) fn tell(rt: &HostRuntime, opening: &[u8], n: u64) -> Result<(), Told> {
    let digits = InlineText::<20>::of(n);
    files::write(rt, opening)?;
    files::write(rt, digits.as_str().as_bytes())?;
    files::write(rt, b"))\n")
}

// What the word of an argument asks for, where it is known.
fn asked(rt: &HostRuntime, i: Option<usize>) -> Option<Task> {
    let mut word = [0u8; 4096];
    match files::argument(rt, i, b"", &mut word) {
        b"read" => Some(Task::Read),
        b"write" => Some(Task::Write),
        b"wav" => Some(Task::Wav),
        _ => None,
    }
}

// The law that an argument names, if it does.
fn named_law(rt: &HostRuntime, i: Option<usize>) -> Option<Law> {
    let mut word = [0u8; 4096];
    match files::argument(rt, i, b"", &mut word) {
        b"a" => Some(Law::A),
        b"mu" => Some(Law::Mu),
        _ => None,
    }
}

// A command line that can't be taken: why, and the usage.
fn misused(rt: &HostRuntime, what: &[u8]) {
    files::say(rt, b"g711_leg", what);
    let usage = USAGE;
    files::tell(rt, &usage);
}

// A leg to printed samples.
fn read(rt: &HostRuntime, a: Asked, law: Law) {
    if 3 < a.operands {
        misused(rt, b"too many arguments");
        return;
    }
    let mut name = [0u8; 4096];
    let name = files::argument(rt, a.third, b"standard input", &mut name);
    let from = files::input(
        rt,
        a.third.is_some(),
        name,
        b"g711_leg",
        b"reading a leg's bytes from the terminal; end them with Ctrl-D (g711_leg --help tells more)",
    );
    if let Ok(from) = from {
        reading::read(rt, law, &from, name);
    }
}

// Printed samples to a leg.
fn write(rt: &HostRuntime, a: Asked, law: Law, wave: bool) {
    if a.operands < 4 {
        misused(rt, b"too few arguments");
        return;
    }
    let mut samples = [0u8; 4096];
    let mut leg = [0u8; 4096];
    let samples = files::argument(rt, a.third, b"", &mut samples);
    let leg = files::argument(rt, a.fourth, b"", &mut leg);
    writing::write(rt, law, wave, samples, leg);
}

fn main(rt: HostRuntime) {
    if files::standard_open(&rt).is_err() {
        return;
    }
    let a = files::asked(&rt, 2, 4);
    let usage = USAGE;
    if files::no_tables(&rt, a, b"g711_leg", &usage) {
        return;
    }
    let done = files::answered(
        &rt,
        a,
        b"g711_leg",
        &usage,
        b"Turns a G.711 leg into the printed form of its samples, and back.\n\n  g711_leg read a monday.al >monday.samples\n  g711_leg wav mu monday.samples monday.wav\n\n  read        a leg's bytes to printed samples, a line for each 80\n  write       printed samples to a new file of the leg's bytes\n  wav         the same to a new WAV file\n  LAW         a for A-law, mu for mu-law\n  LEG         a file of bytes, or a WAV file of that law, one channel, 8,000 a second; read takes standard input where none is given\n  SAMPLES     a file of printed samples, each a value of the law\n  --help      this text\n  --version   the version\n\nNo file is overwritten. A text that is refused makes none: (refused (code C) (line L)) is printed, and the reason is said on standard error.\n",
    );
    if done {
        return;
    }
    let Some(task) = asked(&rt, a.first) else {
        misused(&rt, b"the first argument is none of read, write and wav");
        return;
    };
    let Some(law) = named_law(&rt, a.second) else {
        misused(&rt, b"LAW is neither a nor mu");
        return;
    };
    match task {
        Task::Read => read(&rt, a, law),
        Task::Write => write(&rt, a, law, false),
        Task::Wav => write(&rt, a, law, true),
    }
}
