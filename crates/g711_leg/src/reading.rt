// A leg to printed samples: each 80 bytes become a line `(pcm H)`, the last ones fewer where some are left; the total stands behind them.
ghost use Rattle.std.specs.Prelude.{◌+◌, ◌-◌, ◌*◌, ◌≤◌, length};
ghost use Rattle.source.specs.Source.{Inside};

use crate::{SAMPLES, tell};
use files::Input;
use g711::Law;
use print::FRAME_ROOM;
use source::{ROOM, Source};

// How many lines are written at once, and the room for them.
const LINES: usize = 200;

const OUT: usize = LINES * FRAME_ROOM;

// The leg that is read.
#[derive(Clone, Copy)]
struct Leg<'a> {
    law: Law,
    file: &'a Input,
    name: &'a [u8],
}

// How many bytes were taken of a leg, and how many were printed for them.
#[derive(Clone, Copy)]
struct Batch {
    taken: usize,
    written: usize,
}

// The lines of these bytes, as many as have room.
fn put_lines(law: Law, bytes: &[u8], out: &mut [u8]) -> Batch
    requires { 65400 ≤ length out.old }
    ensures { (result.taken ≤ length bytes.now) × (result.written ≤ 65400) }
{
    let mut line = [0u8; FRAME_ROOM];
    let mut taken = 0;
    let mut written = 0;
    for _ in 0..LINES {
        let end = taken + SAMPLES.min(bytes.len() - taken);
        let n = leg::line(u32::from(law), &bytes[taken..end], &mut line);
        written = print::put(&line[..n], written, out);
        taken = end;
    }
    Batch { taken, written }
}

// How many of n bytes at hand lines are made of: those of whole lines, and at the end of a leg all.
fn ready(n: usize, ended: bool) -> usize
    ensures { result ≤ n }
{
    if ended {
        return n;
    }
    n - n % SAMPLES
}

// Where the reading is: the bytes at hand, and the samples that were printed.
#[derive(Clone, Copy)]
struct Place {
    source: Source,
    samples: u64,
}

// What follows a turn: another one; the end of the leg; or the end where something could not be read or written, and the reason was said.
#[derive(Clone, Copy, PartialEq, Eq)]
enum Next {
    Go,
    Done,
    Failed,
}

impl Place {
    // Prints lines of what is at hand. The last turn is the one behind which a leg that has ended has nothing left.
    fn print(&mut self, rt: &HostRuntime, law: Law, input: &[u8], out: &mut [u8]) -> Next
        requires { Inside self.old.source (length input.now) × (65400 ≤ length out.old) }
        ensures { Inside self.new.source (length input.now) }
    {
        let s = self.source;
        let from = s.from;
        let end = from + ready(s.to - from, s.ended);
        let lines = put_lines(law, &input[from..end], out);
        let left = source::used(s, lines.taken);
        self.source = left;
        self.samples = self.samples.wrapping_add(lines.taken as u64);
        if files::write(rt, &out[..lines.written]).is_err() {
            return Next::Failed;
        }
        if left.from == left.to && left.ended {
            Next::Done
        } else {
            Next::Go
        }
    }

    // One turn: a read where fewer bytes are at hand than a whole line has, else lines.
    fn turn(&mut self, rt: &HostRuntime, leg: Leg, input: &mut [u8], out: &mut [u8]) -> Next
        requires { Inside self.old.source (length input.old) × (65400 ≤ length out.old) }
        ensures { Inside self.new.source (length input.old) }
    {
        let s = self.source;
        if s.to - s.from < SAMPLES && !s.ended {
            let s = source::fill(rt, leg.file, leg.name, s, input);
            self.source = s;
            return if s.good { Next::Go } else { Next::Failed };
        }
        self.print(rt, leg.law, input, out)
    }
}

// Turns up to the end of a leg; whether all could be read and written.
fn pass(rt: &HostRuntime, leg: Leg, p: &mut Place, input: &mut [u8; ROOM]) -> bool
    requires { Inside p.old.source 65536 }
{
    let mut out = [0u8; OUT];
    for _ in 0..u64::MAX {
        match p.turn(rt, leg, input, &mut out) {
            Next::Go => {}
            Next::Done => break,
            Next::Failed => return false,
        }
    }
    true
}

// A whole leg, from what is at hand of it, and its total.
fn convert(rt: &HostRuntime, leg: Leg, start: Source, input: &mut [u8; ROOM])
    requires { Inside start 65536 }
{
    let mut p = Place {
        source: start,
        samples: 0,
    };
    if pass(rt, leg, &mut p, input) {
        if source::cut(p.source) {
            files::say(
                rt,
                leg.name,
                b"a WAV file of fewer samples than it says: it was cut, or its length was not known when it was written",
            );
        }
        let _ = tell(rt, b"(total (samples ", p.samples);
    }
}

// What is at hand of a leg that begins with these bytes: the samples of a WAV file, which must be of this law, or all.
fn begun(rt: &HostRuntime, leg: Leg, bytes: &[u8]) -> Source
    ensures { Inside result (length bytes.now) }
{
    if !bytes.starts_with(b"RIFF") {
        return source::raw(bytes.len());
    }
    match leg.law {
        Law::A => source::wave(
            rt,
            leg.name,
            bytes,
            wav::A_LAW,
            8,
            b"A-law of 8 bits (format 6)",
        ),
        Law::Mu => source::wave(
            rt,
            leg.name,
            bytes,
            wav::MU_LAW,
            8,
            b"mu-law of 8 bits (format 7)",
        ),
    }
}

// Prints the samples of an open leg. Where it can't be read or is a WAV file of another kind the reason is on standard error, and there is no total. A first read that fails is told by the next one.
pub(crate) fn read(rt: &HostRuntime, law: Law, file: &Input, name: &[u8]) {
    let leg = Leg { law, file, name };
    let mut input = [0u8; ROOM];
    let n = file.read_full(&mut input);
    let start = begun(rt, leg, &input[..n]);
    if start.good {
        convert(rt, leg, start, &mut input);
    }
}
