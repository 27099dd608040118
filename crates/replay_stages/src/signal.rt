// The adaptive vector, the excitation and the samples: clauses 3.7.1, 3.10 and 4.1.6.
// `t`: the tables; `f`: the words of the frame's line.
ghost use Rattle.std.specs.Prelude.{◌+◌, ◌≤◌, length};

use crate::rows::Row;
use replay::part;
use replay::tally::Tally;

// The place of a subframe in the line.
fn place(second: bool) -> usize
    ensures { result ≤ 257 }
{
    if second { 257 } else { 89 }
}

// The place of a subframe's coefficients there.
fn coefficients(second: bool) -> usize {
    if second { 78 } else { 67 }
}

// The place of a subframe in the excitation.
fn start(second: bool) -> usize
    ensures { result ≤ 194 }
{
    if second { 194 } else { 154 }
}

// Writes forty words of the line over a subframe.
fn put(f: &[i16], at: usize, start: usize, exc: &mut [i16])
    requires { start + 40 ≤ length exc.old }
{
    let end = start + 40;
    part::fill(f, at, &mut exc[start..end]);
}

// The adaptive vector; the one of the line stands there afterwards.
fn adaptive_vector(t: &[i16], f: &[i16], second: bool, exc: &mut [i16; 234], tally: &mut Tally) {
    let at = place(second);
    let b30 = tables::b30(t);
    adaptive::adaptive_vector(
        &b30,
        exc,
        second,
        part::word(f, at, 0),
        part::word(f, at, 1),
    );
    let v: [i16; 40] = part::array(exc, start(second));
    tally.words(Row::Vector as usize, f, at + 87, &v);
    put(f, at + 87, start(second), exc);
}

// The excitation; the one of the line stands there afterwards.
fn excitation(f: &[i16], second: bool, exc: &mut [i16; 234], tally: &mut Tally) {
    let at = place(second);
    let code: [i16; 40] = part::array(f, at + 44);
    synth::excitation(
        exc,
        second,
        &code,
        part::word(f, at, 84),
        part::word(f, at, 85),
    );
    let u: [i16; 40] = part::array(exc, start(second));
    tally.words(Row::Excitation as usize, f, at + 127, &u);
    put(f, at + 127, start(second), exc);
}

// Whether the first synthesis saturates.
fn saturated(a: [i16; 11], exc: [i16; 234], second: bool, speech: [i16; 90]) -> bool {
    let mut room = speech;
    synth_filter::synthesize(&a, &exc, second, &mut room)
}

// The excitation and the speech of a frame.
#[derive(Drop)]
pub struct Signal {
    pub exc: [i16; 234],
    pub speech: [i16; 90],
}

// One subframe.
fn subframe(t: &[i16], f: &[i16], second: bool, before: Signal, tally: &mut Tally) -> Signal {
    let mut exc = before.exc;
    let mut speech = before.speech;
    adaptive_vector(t, f, second, &mut exc, tally);
    excitation(f, second, &mut exc, tally);
    let a = part::array(f, coefficients(second));
    let over = saturated(a, exc, second, speech);
    tally.number(
        Row::Synthesize as usize,
        f,
        place(second) + 167,
        over as u16,
    );
    synth::reconstruct(&a, &mut exc, second, &mut speech);
    Signal { exc, speech }
}

// The samples of a frame, and the excitation and the samples that it leaves.
fn left(f: &[i16], signal: Signal, tally: &mut Tally) {
    let exc = signal.exc;
    let speech = signal.speech;
    tally.tail(Row::Reconstruct as usize, f, 425, &speech, 10);
    tally.tail(Row::Reconstruct as usize, f, 575, &exc, 80);
    tally.tail(Row::Reconstruct as usize, f, 729, &speech, 80);
}

// The past excitation and the last ten samples of a state, with room for a frame behind each.
fn before(s: &[i16]) -> Signal {
    let mut exc = [0i16; 234];
    let mut speech = [0i16; 90];
    part::fill(s, 70, &mut exc[..154]);
    part::fill(s, 224, &mut speech[..10]);
    Signal { exc, speech }
}

pub(crate) fn frame(t: &[i16], s: &[i16], f: &[i16], tally: &mut Tally) {
    let first = subframe(t, f, false, before(s), tally);
    let second = subframe(t, f, true, first, tally);
    left(f, second, tally);
}
