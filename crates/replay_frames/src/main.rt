// Replays calls of all four kinds of frames against the Rust's answers. Standard input has lines of fixed sizes, a letter and words of four
// hexadecimal digits (oracle/README.md has the layout). T: the tables. N: a call from the fresh state. S: a call from these words.
// F: kind, payload, the 80 samples. E: the state here. R: arguments that are refused or not, with the answers.
// Two decoders run side by side: the first through the whole call, the second cut at each E line and resumed from the words of that line.
#![tactic(auto)]

mod refusals;
mod rows;

use replay::tally::Tally;
use replay::{part, stream};
use rows::Row;

// A frame with as much of the payload as its kind has.
fn frame(t: &[i16], b: &mut [i16], kind: u32, payload: &[u8], out: &mut [i16]) -> u32 {
    let n = kind::payload_length(kind).min(payload.len());
    refusal::code(decoder::frame(t, b, kind, &payload[0..n], out))
}

// One frame by one decoder; `row` counts its samples.
fn decode(t: &[i16], b: &mut [i16], f: &[i16], row: usize, tally: &mut Tally) {
    let mut out = [0i16; 80];
    let kind = part::number(f, 0) as u32;
    let payload = part::payload(f);
    let code = frame(t, b, kind, &payload, &mut out);
    tally.count(Row::Answers as usize, code != 0);
    tally.words(row, f, 11, &out);
}

fn table_line<R: Input>(rt: &R, t: &mut [i16; 1880]) -> Option<()> {
    stream::read_words(rt, t)
}

// A call begins in the fresh state.
fn fresh_line<R: Input>(
    rt: &R,
    t: &[i16; 1880],
    whole: &mut [i16; 234],
    resumed: &mut [i16; 234],
    tally: &mut Tally,
) -> Option<()> {
    let end = stream::byte(rt);
    let first = state::fresh_state(t, whole);
    let second = state::fresh_state(t, resumed);
    tally.count(Row::Calls as usize, false);
    tally.count(Row::Answers as usize, first.is_err());
    tally.count(Row::Answers as usize, second.is_err());
    end.map(|_| ())
}

// A call begins in the state of the line.
fn state_line<R: Input>(
    rt: &R,
    whole: &mut [i16; 234],
    resumed: &mut [i16; 234],
    tally: &mut Tally,
) -> Option<()> {
    let more = stream::read_words(rt, whole);
    *resumed = *whole;
    tally.count(Row::Calls as usize, false);
    more
}

fn frame_line<R: Input>(
    rt: &R,
    t: &[i16; 1880],
    whole: &mut [i16; 234],
    resumed: &mut [i16; 234],
    tally: &mut Tally,
) -> Option<()> {
    let f: [i16; 91] = stream::words(rt)?;
    tally.count(Row::Frames as usize, false);
    decode(t, whole, &f, Row::WholeSamples as usize, tally);
    decode(t, resumed, &f, Row::ResumedSamples as usize, tally);
    Some(())
}

// The state that both decoders must have here, and from which the second goes on.
fn end_line<R: Input>(
    rt: &R,
    whole: &[i16; 234],
    resumed: &mut [i16; 234],
    tally: &mut Tally,
) -> Option<()> {
    let s: [i16; 234] = stream::words(rt)?;
    tally.words(Row::WholeStates as usize, &s, 0, whole);
    tally.words(Row::ResumedStates as usize, &s, 0, resumed);
    *resumed = s;
    Some(())
}

fn refusal_line<R: Input>(rt: &R, tally: &mut Tally) -> Option<()> {
    let words: [i16; 14] = stream::words(rt)?;
    refusals::line(&words, tally);
    Some(())
}

// The next line. False at the end.
fn line<R: Input>(
    rt: &R,
    t: &mut [i16; 1880],
    whole: &mut [i16; 234],
    resumed: &mut [i16; 234],
    tally: &mut Tally,
) -> Option<()> {
    match stream::byte(rt)? {
        b'T' => table_line(rt, t),
        b'N' => fresh_line(rt, t, whole, resumed, tally),
        b'S' => state_line(rt, whole, resumed, tally),
        b'F' => frame_line(rt, t, whole, resumed, tally),
        b'E' => end_line(rt, whole, resumed, tally),
        b'R' => refusal_line(rt, tally),
        _ => None,
    }
}

// All lines, up to 2^32 - 1.
fn main(rt: HostRuntime) {
    let mut tally = Tally::new();
    let mut t = [0i16; 1880];
    let mut whole = [0i16; 234];
    let mut resumed = [0i16; 234];
    replay::repeat(|| line(&rt, &mut t, &mut whole, &mut resumed, &mut tally));
    rows::print(&rt, &tally);
}
