// The program `resume [--tables FILE] CALL STATE OUT [FRAMES]`: goes on with the job whose state is in STATE, or begins one. Here are its arguments; the job is in crate
// job_files.
#![tactic(auto)]

use job::parts::ALL;
use options::Asked;

const USAGE: [u8; 54] = *b"usage: resume [--tables FILE] CALL STATE OUT [FRAMES]\n";

// The fourth argument: at most so many frames; none where it is no number. Where there is no argument, more than a call can have, so that the end is always reached.
fn frames(rt: &HostRuntime, a: Asked) -> Option<u32> {
    let Some(i) = a.fourth else {
        return Some(ALL);
    };
    let mut room = [0u8; 64];
    job::parts::wanted(files::arg(rt, i, &mut room).unwrap_or(b""))
}

fn run(rt: &HostRuntime, a: Asked, most: u32) {
    let mut tables = [0u8; 4096];
    let mut call = [0u8; 4096];
    let mut state = [0u8; 4096];
    let mut out = [0u8; 4096];
    job_files::resume(
        rt,
        files::argument(rt, a.tables, b"tables.g729", &mut tables),
        files::argument(rt, a.first, b"", &mut call),
        files::argument(rt, a.second, b"", &mut state),
        files::argument(rt, a.third, b"", &mut out),
        most,
    );
}

fn main(rt: HostRuntime) {
    if files::standard_open(&rt).is_err() {
        return;
    }
    let usage = USAGE;
    let a = files::asked(&rt, 3, 4);
    let answered = files::answered(
        &rt,
        a,
        b"resume",
        &usage,
        b"Decodes the next FRAMES frames of CALL, or all that are left, to OUT, and leaves the state of the job in STATE.\nWithout a file STATE a new job begins. The same command goes on where a run was stopped.\n\n  resume day.call day.state day.samples          all of a call\n  resume day.call day.state day.samples 6000     its next minute\n\n  --tables FILE   the tables, 3,760 bytes; else tables.g729 of this folder\n  --help          this text\n  --version       the version\n",
    );
    if answered {
        return;
    }
    let Some(most) = frames(&rt, a) else {
        files::say(&rt, b"resume", b"FRAMES is no decimal number");
        files::tell(&rt, &usage);
        return;
    };
    run(&rt, a, most);
}
