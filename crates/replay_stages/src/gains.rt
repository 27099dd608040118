// Gains and the factor of pitch sharpening: clauses 3.8, 3.9, 4.1.5, 4.4.2 and 4.4.3.
// `t`: the tables; `s`: the state before the frame; `f`: the words of the frame's line.
use crate::rows::Row;
use bitstream::SpeechParams;
use gain::GainState;
use replay::part;
use replay::tally::Tally;

// The gains of a state.
fn state(s: &[i16]) -> GainState {
    let m0 = part::word(s, 63, 0);
    let m1 = part::word(s, 64, 0);
    let m2 = part::word(s, 65, 0);
    let m3 = part::word(s, 66, 0);
    GainState {
        mem: [m0, m1, m2, m3],
        gp: part::word(s, 67, 0),
        gc: part::word(s, 68, 0),
    }
}

// The gains of the subframe whose words begin at `at`.
fn gains(f: &[i16], at: usize, row: usize, found: GainState, tally: &mut Tally) {
    tally.word(row, part::word(f, at, 84), found.gp);
    tally.word(row, part::word(f, at, 85), found.gc);
}

// The gains and the memory that the frame leaves.
fn left(f: &[i16], row: usize, found: GainState, tally: &mut Tally) {
    let memory = found.mem;
    tally.words(row, f, 568, &memory);
    tally.word(row, part::word(f, 572, 0), found.gp);
    tally.word(row, part::word(f, 573, 0), found.gc);
}

pub(crate) fn voice(p: SpeechParams, t: &[i16], s: &[i16], f: &[i16], tally: &mut Tally) {
    let first = gain::decode(t, state(s), p.ga1, p.gb1, part::array(f, 133));
    gains(f, 89, Row::DecodeGain as usize, first, tally);
    let second = gain::decode(t, first, p.ga2, p.gb2, part::array(f, 301));
    gains(f, 257, Row::DecodeGain as usize, second, tally);
    left(f, Row::DecodeGain as usize, second, tally);
}

pub(crate) fn concealed(t: &[i16], s: &[i16], f: &[i16], tally: &mut Tally) {
    let first = gain::conceal(t, state(s));
    gains(f, 89, Row::ConcealGain as usize, first, tally);
    let second = gain::conceal(t, first);
    gains(f, 257, Row::ConcealGain as usize, second, tally);
    left(f, Row::ConcealGain as usize, second, tally);
}

// The factor that sharpens each subframe is made from the pitch gain of the one before.
pub(crate) fn sharpening(t: &[i16], s: &[i16], f: &[i16], tally: &mut Tally) {
    tally.word(
        Row::Carried as usize,
        part::word(f, 175, 0),
        part::word(s, 69, 0),
    );
    let second = gain::sharpening(t, part::word(f, 173, 0));
    tally.word(Row::Sharpening as usize, part::word(f, 343, 0), second);
    let next = gain::sharpening(t, part::word(f, 341, 0));
    tally.word(Row::Sharpening as usize, part::word(f, 574, 0), next);
}
