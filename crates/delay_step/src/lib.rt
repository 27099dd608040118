// One line of a call (01, "The call text and the program") for a table of delays (change request 12): the operations Line and Count, then the delays of the frame with their rules, and its row.
#![tactic(auto)]

ghost use Rattle.std.specs.Prelude.{◌≡◌, ◌≤◌, length};
ghost use Rattle.print.specs.Print.{over};
ghost use Rattle.line_step.specs.Step.{one_more, with_code};
ghost use Rattle.frame_delays.specs.Delays.{frame_delays};
ghost use Rattle.delay_step.specs.Step.{kept, report_row, Answer, given, scanned, frame_step, delay_step};

use count::Counts;
use delay_line::ROOM;
use line_step::Progress;
use rule::Report;

// The progress after a line, and how many bytes it printed.
#[derive(Clone, Copy)]
pub struct Stepped {
    pub job: Progress,
    pub written: usize,
}

// The row of what a frame hands up, at the front of lent bytes; its length is answered.
fn report_row(frame: u32, r: Report, out: &mut [u8; ROOM]) -> usize
    ensures { (result ≤ 256) × ((result ≡ length (report_row frame r)) × (out.new ≡ over (report_row frame r) out.old)) }
{
    let first = r.first;
    let second = r.second;
    let rules = r.rules;
    let a = rules.first;
    let b = rules.second;
    delay_line::row(
        frame,
        delay_line::thirds(first),
        rule::number(a),
        delay_line::thirds(second),
        rule::number(b),
        out,
    )
}

// A line that is refused prints nothing.
fn stopped(p: Progress, code: u32) -> Stepped
    ensures { (result.job ≡ with_code p code) × (result.written ≡ 0) }
{
    Stepped {
        job: p.with_code(code),
        written: 0,
    }
}

// A frame whose delays are known, with the counts that it leads to: its number is that of its line.
fn done(from: Progress, next: Counts, r: Report, out: &mut [u8; ROOM]) -> Stepped
    ensures { (result.job ≡ record { code = 0; lines = one_more from.lines; counts = next }) × ((result.written ≤ 256) × ((result.written ≡ length (report_row (one_more from.lines) r)) × (out.new ≡ over (report_row (one_more from.lines) r) out.old))) }
{
    let lines = line_step::one_more(from.lines);
    let written = report_row(lines, r, out);
    let job = Progress {
        code: 0,
        lines,
        counts: next,
    };
    Stepped { job, written }
}

// A frame that was counted, with the counts that it leads to: its delays are found and printed.
fn counted_step(
    carried: &mut i16,
    from: Progress,
    next: Counts,
    kind: u32,
    payload: &[u8],
    out: &mut [u8; ROOM],
) -> Stepped
    ensures out_after { Answer.answer (kept carried.new result.job) result.written out.new ≡ given (scanned from next (frame_delays carried.old kind payload.now)) out.old }
    ensures written_bound { result.written ≤ 256 }
{
    match frame_delays::frame_delays(carried, kind, payload) {
        Err(r) => stopped(from, r.number()),
        Ok(r) => done(from, next, r, out),
    }
}

// One frame: the operation Count, and its delays, in this order. The first refusal is answered, with lines and counts as they were; else 0 with the line taken and the frame counted, and its row at
// the front of `out`. The bytes behind that are as they were.
fn frame_step(
    carried: &mut i16,
    from: Progress,
    kind: u32,
    payload: &[u8],
    out: &mut [u8; ROOM],
) -> Stepped
    ensures out_after { Answer.answer (kept carried.new result.job) result.written out.new ≡ given (frame_step (kept carried.old from) kind payload.now) out.old }
    ensures written_bound { result.written ≤ 256 }
{
    match count::count(kind, rule::frame_rules(kind, payload), from.counts) {
        Err(r) => stopped(from, r.number()),
        Ok(next) => counted_step(carried, from, next, kind, payload, out),
    }
}

// One line, without its line feed: the operation Line, then its frame. `carried` is the delay that the frames before it carry on.
pub fn delay_step(carried: &mut i16, from: Progress, text: &[u8], out: &mut [u8; ROOM]) -> Stepped
    ensures out_after { Answer.answer (kept carried.new result.job) result.written out.new ≡ given (delay_step (kept carried.old from) text.now) out.old }
    ensures written_bound { result.written ≤ 256 }
{
    let mut payload = [0u8; 10];
    match line::line(text, &mut payload) {
        Err(r) => stopped(from, r.number()),
        Ok(kind) => {
            let n = kind::payload_length(kind);
            frame_step(carried, from, kind, &payload[..n], out)
        }
    }
}
