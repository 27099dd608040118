// Replays the Rust's answers for each stage of a frame. Standard input has lines of fixed sizes, a letter and words of four
// hexadecimal digits: T the tables, S a state, F a frame with all its values and the state after it (oracle/README.md has the layout).
// Each stage is run on the Rust's own values of the stages before it. Prints for each stage how many values were compared and differ.
#![tactic(auto)]

ghost use Rattle.std.specs.Prelude.{◌<◌};

mod code;
mod gains;
mod rows;
mod signal;
mod spectrum;

use bitstream::SpeechParams;
use plc::Decision;
use replay::tally::Tally;
use replay::{part, stream};
use rows::Row;

// Tables, state and line stay three parameters: each stage is lent those alone that it reads.
fn voice(p: SpeechParams, t: &[i16], s: &[i16], f: &[i16], tally: &mut Tally) {
    spectrum::voice(p, t, s, f, tally);
    code::voice(p, s, f, tally);
    gains::voice(p, t, s, f, tally);
}

fn concealed(t: &[i16], s: &[i16], f: &[i16], tally: &mut Tally) {
    spectrum::concealed(t, s, f, tally);
    code::concealed(s, f, tally);
    gains::concealed(t, s, f, tally);
}

// The fields of a voice frame, which stand from word 11 of its line on.
fn fields(payload: [u8; 10], f: &[i16], tally: &mut Tally) {
    let mut numbers = [0u16; 15];
    let _ = bitstream::fields(&payload, &mut numbers);
    let found = numbers.map(|x| x.cast_signed());
    tally.words(Row::Unpack as usize, f, 11, &found);
}

// The stages that depend on the kind of the frame.
fn by_kind(t: &[i16], s: &[i16], f: &[i16], tally: &mut Tally) {
    let payload = part::payload(f);
    let decision = plc::decide(part::number(f, 0) as u32, &payload);
    match decision {
        Decision::Voice(p) => {
            fields(payload, f, tally);
            voice(p, t, s, f, tally);
        }
        Decision::Concealment => concealed(t, s, f, tally),
    }
}

// Every stage of the frame with the words f, from the tables t and the state s.
fn frame(t: &[i16], s: &[i16], f: &[i16], tally: &mut Tally) {
    tally.count(Row::Frames as usize, false);
    by_kind(t, s, f, tally);
    spectrum::both(t, s, f, tally);
    code::both(t, f, tally);
    gains::sharpening(t, s, f, tally);
    signal::frame(t, s, f, tally);
}

fn table_line<R: Input>(rt: &R, t: &mut [i16; 1880], tally: &mut Tally) -> Option<()> {
    tally.count(Row::Cases as usize, false);
    stream::read_words(rt, t)
}

fn state_line<R: Input>(rt: &R, s: &mut [i16; 234]) -> Option<()> {
    stream::read_words(rt, s)
}

fn frame_line<R: Input>(
    rt: &R,
    t: &[i16; 1880],
    s: &mut [i16; 234],
    tally: &mut Tally,
) -> Option<()> {
    let f: [i16; 739] = stream::words(rt)?;
    frame(t, s, &f, tally);
    part::fill(&f, 505, s);
    Some(())
}

// The next line. False at the end.
fn line<R: Input>(
    rt: &R,
    t: &mut [i16; 1880],
    s: &mut [i16; 234],
    tally: &mut Tally,
) -> Option<()> {
    match stream::byte(rt)? {
        b'T' => table_line(rt, t, tally),
        b'S' => state_line(rt, s),
        b'F' => frame_line(rt, t, s, tally),
        _ => None,
    }
}

// All lines, up to 2^32 - 1.
fn main(rt: HostRuntime) {
    let mut tally = Tally::new();
    let mut t = [0i16; 1880];
    let mut s = [0i16; 234];
    replay::repeat(|| line(&rt, &mut t, &mut s, &mut tally));
    rows::print(&rt, &tally);
}
