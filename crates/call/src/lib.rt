// A call as text (01, "The call text and the program"): lines to printed samples, a part of the text at a time, in lent memory.
#![tactic(auto)]

ghost use Rattle.std.specs.Prelude.{◌≡◌, ◌+◌, ◌≤◌, min, length};
ghost use Rattle.std.proofs.Math.Seq.{slice};
ghost use Rattle.refusal.specs.Refusal.{code};
ghost use Rattle.line_step.specs.Step.{kept};
ghost use Rattle.call.specs.Call.{start, last_form};
ghost use Rattle.call.specs.Chunk.{Answer, goes_on, lines, overlong, turn, Begun, begin};
ghost use Rattle.print.specs.Print.{over, form_room};

use count::Counts;
use line::LONGEST;
use line_step::Progress;
use print::{FORM_ROOM, FRAME_ROOM};
use refusal::Refusal;

// How far the call is after the lines taken; and how many bytes of input were used and of output written.
#[derive(Clone, Copy)]
pub struct Taken {
    pub job: Progress,
    pub used: usize,
    pub written: usize,
}

// How far a call is before its first line.
pub fn start() -> Progress
    ensures { result ≡ start }
{
    Progress {
        code: 0,
        lines: 0,
        counts: Counts::none(),
    }
}

// Whether a further line is taken, where `most` may be and `room` bytes of output are left.
fn goes_on(job: Progress, most: u32, room: usize) -> bool
    ensures { result ≡ goes_on job most room }
{
    (job.code == 0) & ((0 < most) & (FRAME_ROOM <= room))
}

// Takes whole lines out of `input` until `most` are taken, there is no further line feed, `out` has no room for what a line may print, or a line is refused.
// What they print is at the front of `out`; the bytes behind it are as they were.
pub fn lines(
    t: &[i16],
    b: &mut [i16],
    from: Progress,
    most: u32,
    input: &[u8],
    out: &mut [u8],
) -> Taken
    ensures out_after { Answer.answer (kept b.new result.job) result.used result.written out.new ≡ lines t.now (kept b.old from) most input.now out.old }
    ensures used_in_bounds { (result.used ≤ length input.now) × (result.written ≤ length out.old) }
    ensures lines_le_lines { (from.lines ≤ result.job.lines) × (result.job.lines ≤ from.lines + most) }
{
    let mut job = from;
    let mut left = most;
    let mut text = [0u8; FRAME_ROOM];
    let mut used = 0;
    let mut written = 0;
    // Counted by hand: that a line may still be taken is one of the tests by which the loop ends, and all stand in `goes_on`.
    while goes_on(job, left, out.len() - written) {
        let end = octets::find(input, used, input.len(), 10);
        if end == input.len() {
            return Taken { job, used, written };
        }
        let step = line_step::line_step(t, b, job, &input[used..end], &mut text);
        let n = step.written;
        octets::copy(&text[0..n], &mut out[written..]);
        job = step.job;
        left -= 1;
        used = end + 1;
        written += n;
    }
    Taken { job, used, written }
}

// More bytes held without a line feed than the longest line has are no line, whatever follows: 9, unless the call has ended.
pub fn overlong(job: Progress, held: &[u8]) -> Progress
    ensures { result ≡ overlong held.now job }
{
    if job.code != 0 {
        return job;
    }
    if LONGEST < octets::find(held, 0, held.len(), 10) {
        return job.with_code(9);
    }
    job
}

// A turn of a program: whole lines of the bytes held, as `lines` takes them; what is left behind them is refused where it is overlong.
pub fn turn(
    t: &[i16],
    b: &mut [i16],
    from: Progress,
    most: u32,
    held: &[u8],
    out: &mut [u8],
) -> Taken
    ensures out_after { Answer.answer (kept b.new result.job) result.used result.written out.new ≡ turn t.now (kept b.old from) most held.now out.old }
    ensures used_in_bounds { (result.used ≤ length held.now) × (result.written ≤ length out.old) }
{
    let taken = lines(t, b, from, most, held, out);
    Taken {
        job: overlong(taken.job, &held[taken.used..]),
        ..taken
    }
}

// The last form of a call, where `held` are the bytes behind its last line feed: its total, or its refusal. Answers its length; the bytes behind it are as they were.
pub fn finish(job: Progress, held: &[u8], out: &mut [u8; FORM_ROOM]) -> usize
    ensures { (result ≤ form_room) × ((result ≡ length (last_form job held.now)) × (out.new ≡ over (last_form job held.now) out.old)) }
{
    if job.code != 0 {
        return print::refused(job.code, line_step::one_more(job.lines), out);
    }
    if held.len() != 0 {
        return print::refused(9, line_step::one_more(job.lines), out);
    }
    print::total(job.counts, out)
}

// Moves the bytes from `from` up to `to` to the front of a buffer, and answers how many they are.
pub fn keep(input: &mut [u8], from: usize, to: usize) -> usize
    ensures { (result ≤ length input.old) × ((result ≡ length (slice from to input.old)) × (input.new ≡ over (slice from to input.old) input.old)) }
{
    let end = to.min(input.len());
    if end <= from {
        return 0;
    }
    input.copy_within(from..end, 0);
    end - from
}

// Begins a call from the bytes of the table file: the tables and the fresh state. A refusal leaves both blocks as they were.
pub fn begin(file: &[u8], t: &mut [i16], b: &mut [i16]) -> Result<(), Refusal>
    ensures { Begun.begun (code result) t.new b.new ≡ begin file.now t.old b.old }
{
    if file.len() != 3760 {
        return Err(Refusal::TableLength);
    }
    if t.len() != 1880 {
        return Err(Refusal::TableLength);
    }
    let mut tables = [0i16; 1880];
    words::from_bytes(file, &mut tables);
    state::fresh_state(&tables, b)?;
    words::from_bytes(file, t);
    Ok(())
}
