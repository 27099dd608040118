// One read of a call (01, "The call text and the program"): the whole lines of the bytes held and read are decoded, and what is left is held for the next read.
#![tactic(auto)]

ghost use Rattle.std.specs.Prelude.{◌≡◌, ◌+◌, ◌≤◌, min, length, take};
ghost use Rattle.line_step.specs.Step.{kept};
ghost use Rattle.print.specs.Print.{over, form_room};
ghost use Rattle.call.specs.Call.{start, last_form};
ghost use Rattle.read_step.specs.Reading.{input_room, output_room, Answer, read_step};

use line::SHORTEST;
use line_step::Progress;
use print::{FORM_ROOM, FRAME_ROOM};

// As many of the shortest lines as an input has room for.
const LINES: usize = 512;

// The bytes of the input buffer.
pub const INPUT: usize = LINES * (SHORTEST + 1);

// The bytes of the output buffer: room for what these lines print, and one more.
pub const OUTPUT: usize = (LINES + 1) * FRAME_ROOM;

// Where a call stands behind a read: how far it is; how many bytes at the front of the input are not used yet; how many bytes of output were written.
#[derive(Clone, Copy)]
pub struct Reading {
    pub job: Progress,
    pub held: usize,
    pub written: usize,
}

// Before the first read.
pub fn start() -> Reading
    ensures { (result.job ≡ start) × ((result.held ≡ 0) × (result.written ≡ 0)) }
{
    Reading {
        job: call::start(),
        held: 0,
        written: 0,
    }
}

// How many bytes of an input of `most` bytes are there, behind `held` and `got`.
fn end(held: usize, got: usize, most: usize) -> usize
    ensures { result ≡ min (held + got) most }
{
    held.saturating_add(got).min(most)
}

// `read_step` in buffers of any length.
fn step(
    t: &[i16],
    b: &mut [i16],
    from: Progress,
    held: usize,
    got: usize,
    input: &mut [u8],
    out: &mut [u8],
) -> Reading
    ensures out_after { Answer.answer (kept b.new result.job) result.held result.written input.new out.new ≡ read_step t.now (kept b.old from) (held + got) input.old out.old }
    ensures held_in_bounds { (result.held ≤ length input.old) × (result.written ≤ length out.old) }
{
    let to = end(held, got, input.len());
    let taken = call::turn(t, b, from, LINES as u32 + 1, &input[0..to], out);
    let held = call::keep(input, taken.used, to);
    Reading {
        job: taken.job,
        held,
        written: taken.written,
    }
}

// `got` bytes were read into the input behind the held ones. All whole lines are taken, up to one that is refused, and what is behind them is refused where it is overlong. What they print is at
// the front of `out`, and the rest is moved to the front of the input. There is room for every line, so a rest without refusal has no line feed (whole_call.specs.Reads).
pub fn read_step(
    t: &[i16],
    b: &mut [i16],
    from: Reading,
    got: usize,
    input: &mut [u8; INPUT],
    out: &mut [u8; OUTPUT],
) -> Reading
    ensures out_after { Answer.answer (kept b.new result.job) result.held result.written input.new out.new ≡ read_step t.now (kept b.old from.job) (from.held + got) input.old out.old }
    ensures held_le_input_room { (result.held ≤ input_room) × (result.written ≤ output_room) }
{
    step(t, b, from.job, from.held, got, input, out)
}

// `finish` on a slice.
fn last(job: Progress, held: usize, input: &[u8], out: &mut [u8; FORM_ROOM]) -> usize
    ensures { (result ≤ form_room) × ((result ≡ length (last_form job (take held input.now))) × (out.new ≡ over (last_form job (take held input.now)) out.old)) }
{
    let to = held.min(input.len());
    call::finish(job, &input[0..to], out)
}

// The last form, where the text ends behind these reads, or a line was refused. Answers its length; the bytes behind it are as they were.
pub fn finish(at: Reading, input: &[u8; INPUT], out: &mut [u8; FORM_ROOM]) -> usize
    ensures { (result ≤ form_room) × ((result ≡ length (last_form at.job (take at.held input.now))) × (out.new ≡ over (last_form at.job (take at.held input.now)) out.old)) }
{
    last(at.job, at.held, input, out)
}
