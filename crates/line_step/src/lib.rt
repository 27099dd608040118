// One line of a call (01, "The call text and the program"): the operations Line, Count and Frame, and what is printed.
#![tactic(auto)]

ghost use Rattle.std.specs.Prelude.{◌≡◌, ◌≤◌, pos, replicate};
ghost use Rattle.decoder.specs.Call.{frame};
ghost use Rattle.print.specs.Print.{frame_room};
ghost use Rattle.line_step.specs.Step.{kept, one_more, with_code, Answer, given, framed, frame_step, line_step};

use count::Counts;
use print::FRAME_ROOM;

// How far a call is: 0 while it goes on, else the number of the refusal that ended it; the lines that were taken; and the counts.
// The code is a number and no Option: the definitions answer refusals by 01's numbers, and the theorems on whole calls (crate whole_call: `printed_ended`, `Ending`) speak of it.
#[derive(Clone, Copy)]
pub struct Progress {
    pub code: u32,
    pub lines: u32,
    pub counts: Counts,
}

// The progress after a line, and how many bytes it printed.
#[derive(Clone, Copy)]
pub struct Stepped {
    pub job: Progress,
    pub written: usize,
}

// The number behind n; the last of 32 bits has none.
pub fn one_more(n: u32) -> u32
    ensures { result ≡ one_more n }
{
    n.saturating_add(1)
}

impl Progress {
    // The lines and counts as they are, with another code.
    pub fn with_code(self, code: u32) -> Progress
        ensures { result ≡ with_code self code }
    {
        Progress { code, ..self }
    }
}

// A line that is refused prints nothing.
fn stopped(p: Progress, code: u32) -> Stepped
    ensures { (result.job ≡ with_code p code) × (result.written ≡ 0) }
{
    Stepped {
        job: p.with_code(code),
        written: 0,
    }
}

// A frame that was counted, with the counts that it leads to: it is decoded and printed.
fn counted_step(
    t: &[i16],
    b: &mut [i16],
    from: Progress,
    next: Counts,
    kind: u32,
    payload: &[u8],
    out: &mut [u8; FRAME_ROOM],
) -> Stepped
    ensures out_after { Answer.answer (kept b.new result.job) result.written out.new ≡ given (framed (kept b.old from) next (frame t.now b.old kind payload.now (replicate 80 (pos 0)))) out.old }
    ensures written_le_frame_room { result.written ≤ frame_room }
{
    let mut samples = [0i16; 80];
    match decoder::frame(t, b, kind, payload, &mut samples) {
        Err(r) => stopped(from, r.number()),
        Ok(_) => {
            let job = Progress {
                code: 0,
                lines: one_more(from.lines),
                counts: next,
            };
            let written = print::pcm(&samples, out);
            Stepped { job, written }
        }
    }
}

// One frame: the operations Count, with the rules that Frame will hand up, and Frame, in this order. The first refusal is answered, with lines and counts as they were; else 0 with the line taken
// and the frame counted, and what it prints at the front of `out`. The bytes behind that are as they were.
pub fn frame_step(
    t: &[i16],
    b: &mut [i16],
    from: Progress,
    kind: u32,
    payload: &[u8],
    out: &mut [u8; FRAME_ROOM],
) -> Stepped
    ensures out_after { Answer.answer (kept b.new result.job) result.written out.new ≡ given (frame_step t.now (kept b.old from) kind payload.now) out.old }
    ensures written_le_frame_room { result.written ≤ frame_room }
{
    match count::count(kind, rule::frame_rules(kind, payload), from.counts) {
        Err(refused) => stopped(from, refused.number()),
        Ok(next) => counted_step(t, b, from, next, kind, payload, out),
    }
}

// One line, without its line feed: the operation Line, then its frame.
pub fn line_step(
    t: &[i16],
    b: &mut [i16],
    from: Progress,
    text: &[u8],
    out: &mut [u8; FRAME_ROOM],
) -> Stepped
    ensures out_after { Answer.answer (kept b.new result.job) result.written out.new ≡ given (line_step t.now (kept b.old from) text.now) out.old }
    ensures written_le_frame_room { result.written ≤ frame_room }
{
    let mut payload = [0u8; 10];
    match line::line(text, &mut payload) {
        Err(r) => stopped(from, r.number()),
        Ok(kind) => {
            let n = kind::payload_length(kind);
            frame_step(t, b, from, kind, &payload[..n], out)
        }
    }
}
