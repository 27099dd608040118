// Delays and codevectors: clauses 3.7.2, 3.8, 4.1.2 to 4.1.4 and 4.4.4.
// `t`: the tables; `s`: the state before the frame; `f`: the words of the frame's line; `at`: the place of a subframe there.
ghost use Rattle.std.specs.Prelude.{◌≤◌};

use crate::rows::Row;
use bitstream::SpeechParams;
use pitch::{PitchState, Tracked};
use replay::part;
use replay::tally::Tally;

// The carried delay of a state.
fn pitch(s: &[i16]) -> PitchState {
    PitchState {
        old: part::word(s, 61, 0),
    }
}

// The delay of the subframe at `at`.
fn delay(f: &[i16], at: usize, found: Tracked, tally: &mut Tally) {
    let delay = found.delay;
    tally.word(Row::Delay as usize, part::word(f, at, 0), delay.integer);
    tally.word(Row::Delay as usize, part::word(f, at, 1), delay.fraction);
}

// The delay that the frame leaves.
fn delay_left(f: &[i16], found: Tracked, tally: &mut Tally) {
    let state = found.state;
    tally.word(Row::Delay as usize, part::word(f, 566, 0), state.old);
}

fn voice_delays(p: SpeechParams, s: &[i16], f: &[i16], tally: &mut Tally) {
    let ok = pitch::parity_ok(p.p1, p.p0);
    tally.number(Row::Parity as usize, f, 26, ok as u16);
    let first = pitch(s).first(p.p1, ok);
    delay(f, 89, first, tally);
    let second = first.state.second(p.p2, part::word(f, 89, 0));
    delay(f, 257, second, tally);
    delay_left(f, second, tally);
}

fn concealed_delays(s: &[i16], f: &[i16], tally: &mut Tally) {
    let first = pitch(s).erased();
    delay(f, 89, first, tally);
    let second = first.state.erased();
    delay(f, 257, second, tally);
    delay_left(f, second, tally);
}

// The indices that the subframes of a voice frame use, and the seed, which it leaves alone.
fn voice_indices(p: SpeechParams, s: &[i16], f: &[i16], tally: &mut Tally) {
    tally.number(Row::Unpack as usize, f, 91, p.c1);
    tally.number(Row::Unpack as usize, f, 92, p.s1);
    tally.number(Row::Unpack as usize, f, 259, p.c2);
    tally.number(Row::Unpack as usize, f, 260, p.s2);
    tally.word(
        Row::Carried as usize,
        part::word(f, 567, 0),
        part::word(s, 62, 0),
    );
}

// The indices that the subframes of a concealed frame draw, and the seed that they leave.
fn concealed_indices(s: &[i16], f: &[i16], tally: &mut Tally) {
    let first = fixed::random_index(part::word(s, 62, 0));
    tally.number(Row::Random as usize, f, 91, first.index);
    tally.number(Row::Random as usize, f, 92, first.sign);
    let second = fixed::random_index(first.seed);
    tally.number(Row::Random as usize, f, 259, second.index);
    tally.number(Row::Random as usize, f, 260, second.sign);
    tally.word(Row::Random as usize, part::word(f, 567, 0), second.seed);
}

// The codevector of a subframe, before sharpening and after.
fn codevectors(t: &[i16], f: &[i16], at: usize, tally: &mut Tally)
    requires { at ≤ 257 }
{
    let positive = tables::scalars(t, tables::Scalar::FixedCodebookPulsePositive);
    let code = fixed::codevector(positive, part::number(f, at + 2), part::number(f, at + 3));
    tally.words(Row::Codevector as usize, f, at + 4, &code);
    let delay = part::word(f, at, 0);
    let beta = part::word(f, at, 86);
    let sharpened = fixed::sharpen(part::array(f, at + 4), delay, beta);
    tally.words(Row::Sharpen as usize, f, at + 44, &sharpened);
}

pub(crate) fn voice(p: SpeechParams, s: &[i16], f: &[i16], tally: &mut Tally) {
    voice_delays(p, s, f, tally);
    voice_indices(p, s, f, tally);
}

pub(crate) fn concealed(s: &[i16], f: &[i16], tally: &mut Tally) {
    concealed_delays(s, f, tally);
    concealed_indices(s, f, tally);
}

// What is the same in both kinds of frame.
pub(crate) fn both(t: &[i16], f: &[i16], tally: &mut Tally) {
    codevectors(t, f, 89, tally);
    codevectors(t, f, 257, tally);
}
