// A conference: legs that are files, and what each heard, the sum of all others (change request 10), to new WAV files. Crate leg_frame makes frames of a leg's bytes, crate mix sums them. No
// contract can say what is read or written; those here say that what is at hand of each leg is inside of its buffer.
#![tactic(auto)]

ghost use Rattle.std.specs.Prelude.{◌≤◌, ◌<◌, length, IfOk};

mod heard;
mod inputs;
mod paths;

use files::Told;
use heard::{Heard, PART};
use inputs::{Leg, Standing};
use source::ROOM;
use std::fmt::InlineText;

// The most legs, the samples of a frame, and of the frames of all legs.
pub(crate) const LEGS: usize = 8;

pub(crate) const FRAME: usize = 80;

pub(crate) const SAMPLES: usize = LEGS * FRAME;

// How many frames there are between two messages: ten minutes.
const STRETCH: u32 = 60000;

// How far a conference is: its frames, no more than a WAV file can have, and how many of them are not written yet.
#[derive(Clone, Copy)]
struct Place {
    frames: u32,
    held: usize,
    ghost few: { frames ≤ 26843545 },
    ghost part: { held < 100 },
}

// A message where so many frames are whole stretches.
fn tell_progress(rt: &HostRuntime, frames: u32) {
    if frames % STRETCH == 0 {
        files::tell(rt, b"conference: ");
        files::tell_number(rt, (frames / 6000) as u64);
        files::tell(rt, b" min\n");
    }
}

impl Place {
    // The next frame of the first n legs is mixed, and what is held is written where it is enough.
    fn add(
        &mut self,
        rt: &HostRuntime,
        n: usize,
        outs: &[Option<Heard>; LEGS],
        samples: &[i16; SAMPLES],
        held: &mut [[u8; PART]; LEGS],
    ) -> Result<(), Told>
        requires { n ≤ 8 }
    {
        if heard::MOST <= self.frames {
            files::say(
                rt,
                b"conference",
                b"more than 26,843,545 frames, which a WAV file can't have",
            );
            return Err(Told);
        }
        heard::add(n, self.held, samples, held);
        self.frames += 1;
        tell_progress(rt, self.frames);
        let behind = self.held + 1;
        if behind < heard::FRAMES {
            self.held = behind;
            return Ok(());
        }
        self.held = 0;
        heard::write_all(rt, outs, held, behind)
    }
}

// All frames of the first n legs; how many there are.
fn run(
    rt: &HostRuntime,
    n: usize,
    legs: &mut [Option<Leg>; LEGS],
    input: &mut [[u8; ROOM]; LEGS],
    outs: &[Option<Heard>; LEGS],
) -> Result<u32, Told>
    requires { n ≤ 8 }
    ensures { IfOk result (λ frames. frames ≤ 26843545) }
{
    let mut samples = [0i16; SAMPLES];
    let mut held = [[0u8; PART]; LEGS];
    let mut p = Place { frames: 0, held: 0 };
    for _ in 0..u64::MAX {
        inputs::frames(rt, legs, input, &mut samples);
        match inputs::all_of(legs) {
            Standing::Failed => return Err(Told),
            Standing::Done => break,
            Standing::Going => p.add(rt, n, outs, &samples, &mut held)?,
        }
    }
    heard::write_all(rt, outs, &held, p.held)?;
    Ok(p.frames)
}

// What is told of a conference that was written.
fn tell(rt: &HostRuntime, n: usize, frames: u32) -> Result<(), Told> {
    let legs = InlineText::<20>::of(n);
    let frames = InlineText::<20>::of(frames);
    files::write(rt, b"(written (legs ")?;
    files::write(rt, legs.as_str().as_bytes())?;
    files::write(rt, b") (frames ")?;
    files::write(rt, frames.as_str().as_bytes())?;
    files::write(rt, b"))\n")
}

// The files of the first n legs are made and written, and their headers say then how long they are; how many frames there are.
fn written(
    rt: &HostRuntime,
    names: &[u8],
    n: usize,
    legs: &mut [Option<Leg>; LEGS],
    input: &mut [[u8; ROOM]; LEGS],
    outs: &mut [Option<Heard>; LEGS],
) -> Result<u32, Told>
    requires { n ≤ 8 }
{
    heard::make(rt, names, n, outs)?;
    let frames = run(rt, n, legs, input, outs)?;
    heard::rewrite_all(rt, outs, frames)?;
    heard::keep_all(rt, outs)?;
    Ok(frames)
}

// The files are made, written and closed; where not all of that can be done, those that were made are removed again.
fn make(
    rt: &HostRuntime,
    names: &[u8],
    n: usize,
    legs: &mut [Option<Leg>; LEGS],
    input: &mut [[u8; ROOM]; LEGS],
)
    requires { n ≤ 8 }
{
    let mut outs = [None, None, None, None, None, None, None, None];
    match written(rt, names, n, legs, input, &mut outs) {
        Ok(frames) => {
            drop(outs);
            let _ = tell(rt, n, frames);
        }
        Err(Told) => heard::remove_all(rt, &mut outs),
    }
}

// A conference of the first n legs. One that is refused by its first bytes makes no file.
fn conference_of(rt: &HostRuntime, names: &[u8], n: usize)
    requires { n ≤ 8 }
{
    let mut legs = [None, None, None, None, None, None, None, None];
    let mut input = [[0u8; ROOM]; LEGS];
    if inputs::begin(rt, names, n, &mut legs, &mut input).is_ok() {
        make(rt, names, n, &mut legs, &mut input);
    }
}

// Words of another number.
fn refuse(rt: &HostRuntime) {
    files::say(rt, b"conference", b"OUT and 1 to 8 legs are needed");
}

// Makes a conference. `names` has OUT and 1 to 8 legs, each followed by a zero byte. A leg is printed samples, a WAV file, or `a:` or `mu:` and the name of a file of G.711 bytes. What each heard
// is OUT-1.wav and so on. Where anything is refused or fails the reason is on standard error, and no file is left.
pub fn conference(rt: &HostRuntime, names: &[u8]) {
    let n = paths::count(names);
    if n < 2 || LEGS + 1 < n {
        refuse(rt);
        return;
    }
    let out = paths::word(names, 0);
    if paths::LONGEST < out.len() {
        files::say(
            rt,
            out,
            b"more than 4,089 bytes, so that no file can be named behind it",
        );
        return;
    }
    conference_of(rt, names, n - 1);
}
