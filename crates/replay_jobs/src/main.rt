// Runs jobs as the program `resume` does, and compares the files that they leave. Standard input has a step a line, its words apart by single blanks; its first letter tells
// which. Each is printed, and behind it what came of it (oracle/jobs writes the steps and the files):
//   resume TABLES CALL STATE OUT FRAMES   a job; all frames where FRAMES is no number
//   copy FROM TO N                        TO is the first N bytes of FROM, all where N is no number
//   add FROM TO N                         TO gets FROM's bytes behind its own, N times
//   damage FILE AT                        byte AT is raised by one; 1 where there is none
//   same A B                              how many bytes both have, how many differ as far as both go, and the CRC-32 of A
//   unlink FILE
//   mkdir FOLDER
#![tactic(auto)]

mod compare;
mod copies;
mod word;

use std::io::Print;
use std::{fs, io};
use word::{number, word};

// A job, which prints its form.
fn resume(rt: &HostRuntime, line: &[u8]) {
    job_files::resume(
        rt,
        word(line, 1),
        word(line, 2),
        word(line, 3),
        word(line, 4),
        number(line, 5),
    );
}

fn make_folder(rt: &HostRuntime, name: &[u8]) -> io::Result<()> {
    fs::create_dir(rt, files::text(name)?)
}

// The step of a line.
fn step(rt: &HostRuntime, line: &[u8]) {
    let _ = rt.write_all(line);
    let _ = rt.write_all(b"\n");
    let a = word(line, 1);
    let b = word(line, 2);
    match line {
        [b'r', ..] => resume(rt, line),
        [b'c', ..] => copies::copy(rt, a, b, number(line, 3)),
        [b'a', ..] => copies::add(rt, a, b, number(line, 3)),
        [b'd', ..] => copies::damage(rt, a, number(line, 2)),
        [b's', ..] => compare::same(rt, a, b),
        [b'u', ..] => {
            let _ = files::remove(rt, a);
        }
        [b'm', ..] => {
            let _ = make_folder(rt, a);
        }
        _ => {}
    }
}

fn main(rt: HostRuntime) {
    replay::lines::each(&rt, |line| step(&rt, line));
}
