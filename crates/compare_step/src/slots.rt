// Eight slots for the signals that a far decoder may hold. A slot has how many samples of the last frame its candidate gave (below 0: there is no candidate), the 154 words of its past excitation, and its
// 90 words of speech, the ten samples before its last frame and that frame's.
ghost use Rattle.std.specs.Prelude.{◌≡◌, cond, ◌&&◌, [], ◌∷◌, ◌++◌, ◌*◌, ◌<◌, ◌≤◌, pos, negsuc, drop, replicate};
ghost use Rattle.block.specs.Block.{part, put};
ghost use Rattle.block.specs.Places.{frame_length, past_length, tail_length};
ghost use Rattle.compare_step.specs.Slots.{slot_length, same, same_samples, slot, tried, all_tried, candidate, candidates, same_slot, fits, stays, only_fitting, fit, best, computed};

use block::places::{EXC_LENGTH, FRAME_LENGTH, PAST_LENGTH, SPEECH_LENGTH, TAIL_LENGTH};
use block::word;
use decoder::Buffers;
use inverse::WINDOW_LENGTH;
use parameters::Decoded;

const SLOTS: usize = 8;

const SLOT_LENGTH: usize = 245;

// ---- a candidate

fn same(a: i16, b: i16) -> bool
    ensures { result ≡ same a b }
{
    !((a < b) | (b < a))
}

// How many samples of y are those of z before the first that isn't; z has ten samples in front.
fn same_samples(y: &[i16; FRAME_LENGTH], z: &[i16; SPEECH_LENGTH]) -> usize
    ensures value { result ≡ same_samples y.now z.now frame_length }
    ensures upper_bound { result ≤ frame_length }
{
    let mut n: usize = 0;
    for k in 0..FRAME_LENGTH {
        if (n == k) & same(y[k], z[TAIL_LENGTH + k]) {
            n = k + 1;
        }
    }
    n
}

// A slot of its parts.
fn slot_of(n: i16, past: &[i16; PAST_LENGTH], speech: &[i16; SPEECH_LENGTH]) -> [i16; SLOT_LENGTH]
    ensures { result ≡ n ∷ (past.now ++ speech.now) }
{
    let mut out = [0i16; SLOT_LENGTH];
    block::put_word(&mut out, 0, n);
    block::put(&mut out, 1, past);
    block::put(&mut out, 155, speech);
    out
}

// The past excitation that a frame leaves.
fn past_of(exc: &[i16; EXC_LENGTH]) -> [i16; PAST_LENGTH]
    ensures { result ≡ drop frame_length exc.now }
{
    let mut past = [0i16; PAST_LENGTH];
    block::words(exc, FRAME_LENGTH, &mut past);
    past
}

// A slot behind a frame of far samples y; one without a candidate stays as it is.
#[tactic(auto, unfolding(crate::specs::Slots::tried))]
fn tried(
    t: &[i16],
    v: Decoded,
    y: &[i16; FRAME_LENGTH],
    x: [i16; SLOT_LENGTH],
) -> [i16; SLOT_LENGTH]
    ensures { result ≡ tried t.now v y.now x }
{
    if x[0] < 0 {
        return x;
    }
    let mut w = Buffers {
        exc: state::opened(&x, 1),
        speech: state::opened(&x, 235),
    };
    w.frame_signal(t, &v);
    let n = same_samples(y, &w.speech);
    slot_of(n as i16, &past_of(&w.exc), &w.speech)
}

// Slot i.
fn slot(s: &[i16], i: usize) -> [i16; SLOT_LENGTH]
    requires { i < 8 }
    ensures { result ≡ slot s.now i }
{
    let mut x = [0i16; SLOT_LENGTH];
    block::words(s, SLOT_LENGTH * i, &mut x);
    x
}

// Every candidate behind a frame of far samples y.
pub(crate) fn all_tried(t: &[i16], v: Decoded, y: &[i16; FRAME_LENGTH], s: &mut [i16])
    ensures { s.new ≡ all_tried t.now v y.now s.old }
{
    for i in 0..SLOTS {
        let x = tried(t, v, y, slot(s, i));
        block::put(s, SLOT_LENGTH * i, &x);
    }
}

// Candidate i of the words w that two frames told, whose last ten samples are e: bits 0, 1 and 2 of i say which subframes were shrunk.
fn candidate(w: &[i16; WINDOW_LENGTH], e: &[i16; TAIL_LENGTH], i: usize) -> [i16; SLOT_LENGTH]
    ensures { result ≡ candidate w.now e.now i }
{
    let past = inverse::window_words(i % 2 == 1, i / 2 % 2 == 1, i / 4 % 2 == 1, w);
    let mut speech = [0i16; SPEECH_LENGTH];
    block::put(&mut speech, FRAME_LENGTH, e);
    slot_of(0, &past, &speech)
}

// The eight candidates.
pub(crate) fn candidates(w: &[i16; WINDOW_LENGTH], e: &[i16; TAIL_LENGTH], s: &mut [i16])
    ensures { s.new ≡ candidates w.now e.now s.old }
{
    for i in 0..SLOTS {
        let x = candidate(w, e, i);
        block::put(s, SLOT_LENGTH * i, &x);
    }
}

// ---- which candidates stay

// How many samples candidate i gave.
pub(crate) fn fit(s: &[i16], i: usize) -> i16
    requires { i < 8 }
    ensures { result ≡ fit s.now i }
{
    word(s, SLOT_LENGTH * i)
}

// Whether it gave all 80.
pub(crate) fn fits(s: &[i16], i: usize) -> bool
    requires { i < 8 }
    ensures { result ≡ fits s.now i }
{
    79 < fit(s, i)
}

// Whether slots i and j have the same words.
fn same_slot(s: &[i16], i: usize, j: usize) -> bool
    requires i_bound { i < 8 }
    requires j_bound { j < 8 }
    ensures { result ≡ same_slot s.now i j }
{
    slot(s, i) == slot(s, j)
}

// Whether slot j has the candidate of slot i, which gave all samples.
fn repeated(s: &[i16], j: usize, i: usize) -> bool
    requires i_bound { i < 8 }
    requires j_bound { j < 8 }
    ensures { result ≡ fits s.now j && same_slot s.now j i }
{
    fits(s, j) && same_slot(s, j, i)
}

// Whether candidate i gave all samples, and no slot before it has the same candidate.
fn stays(s: &[i16], i: usize) -> bool
    requires { i < 8 }
    ensures { result ≡ stays s.now i }
{
    if !fits(s, i) {
        return false;
    }
    let mut ok = true;
    for j in 0..i {
        if repeated(s, j, i) {
            ok = false;
        }
    }
    ok
}

// Slot i without its candidate, where that doesn't stay.
fn vacate(s: &mut [i16], i: usize)
    requires { i < 8 }
    ensures { s.new ≡ cond (stays s.old i) s.old (put s.old (slot_length * i) (negsuc 0 ∷ [])) }
{
    if !stays(s, i) {
        block::put_word(s, SLOT_LENGTH * i, -1);
    }
}

// The candidates that stay; the other slots have none.
pub(crate) fn only_fitting(s: &mut [i16])
    ensures { s.new ≡ only_fitting s.old }
{
    for i in 0..SLOTS {
        vacate(s, i);
    }
}

// The first slot whose candidate gave the most samples.
pub(crate) fn best(s: &[i16]) -> usize
    ensures value { result ≡ best s.now }
    ensures upper_bound { result < 8 }
{
    let mut j: usize = 0;
    for i in 0..SLOTS {
        if fit(s, j) < fit(s, i) {
            j = i;
        }
    }
    j
}

// The samples of candidate i.
pub(crate) fn computed(s: &[i16], i: usize) -> [i16; FRAME_LENGTH]
    requires { i < 8 }
    ensures { result ≡ computed s.now i }
{
    let mut out = [0i16; FRAME_LENGTH];
    block::words(s, SLOT_LENGTH * i + 165, &mut out);
    out
}
