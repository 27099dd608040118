// A comparison of a far decoder's samples with what a decoder makes of the same frames (docs/AGREEMENT.md, "The far decoder's state"): one call a frame, on lent memory.
// Of the far decoder only the samples are seen; `slots` has the candidates for its signal.
#![tactic(auto)]

ghost use Rattle.std.specs.Prelude.{◌≡◌, cond, ◌++◌, map, pos, negsuc, length, drop};
ghost use Rattle.refusal.specs.Refusal.{code, numbered};
ghost use Rattle.block.specs.Places.{frame_length};
ghost use Rattle.inverse.specs.Inverse.{frame_words, word};
ghost use Rattle.state.specs.State.{write_params};
ghost use Rattle.compare_step.specs.Slots.{candidates, only_fitting, best, computed};
ghost use Rattle.compare_step.specs.Compare.{compare_length, left_of, voice_step, step, read_far, far_words, next_count, tells, next_clean, taken, known, slots_tried, slots_left, found, first_difference, look, breaks, next_status, voice_far, class, memory_check, refusal, Answer, stepped, compare, Begun, begin};

mod slots;

use bitstream::SpeechParams;
use block::places::{FRAME_LENGTH, SPEECH_LENGTH, TAIL_LENGTH};
use block::word;
use inverse::WINDOW_LENGTH;
use parameters::Decoded;
use plc::Decision;
use refusal::Refusal;
use state::Params;

// The words of the memory in front of the slots, and all of them.
const FRONT_LENGTH: usize = 243;

pub const COMPARE_LENGTH: usize = 2203;

// Where no candidate gives the far samples: the first sample at which none is left, and how much the far one is more than the computed one.
#[derive(Clone, Copy, PartialEq, Eq, Debug)]
pub struct Difference {
    pub sample: u16,
    pub rest: i32,
}

// What a frame is. The number of Settling and NotClean is the frame's in the count of common voice frames (0: none has passed parity yet).
#[derive(Clone, Copy, PartialEq, Eq, Debug)]
pub enum Class {
    Concealed,
    // There are no candidates.
    Settling(u16),
    // Nor does this frame tell its excitation, though it is the sixth or a later one.
    NotClean(u16),
    // The far samples are those of a candidate.
    Known,
    // They are no candidate's.
    Differs(Difference),
}

// What is kept of the far samples.
#[derive(Clone, Copy)]
pub struct Far {
    // How many common voice frames there were in a row, from one that passes parity on.
    pub count: i16,
    // How many of the last frames in a row can be part of a window, at most two. 0 behind a frame that is a candidate's; -1 behind the first frame that differs, so that the
    // next, whose ten samples before it can't be relied on, isn't counted.
    pub clean: i16,
    // 0 there are no candidates; 1 the last frame is a candidate's; 2 it is none's, and the candidates stay. A number, since it is a word of the memory, which may hold any.
    pub status: i16,
    // The last ten samples.
    pub tail: [i16; TAIL_LENGTH],
    // The excitation that the last two frames told; behind a frame that is a candidate's it isn't kept up.
    pub words: [i16; WINDOW_LENGTH],
}

// What the candidates say of a frame (flags with the difference beside them, as the definition `look` has them, whatever the flags are): whether there are any, whether the far samples are one's, and where they first are none's.
#[derive(Clone, Copy)]
pub struct Seen {
    pub known: bool,
    pub found: bool,
    pub difference: Difference,
}

// ---- the memory

fn read_far(m: &[i16]) -> Far
    ensures { result ≡ read_far m.now }
{
    let tail = block::words_at::<10>(m, 73);
    let mut words = [0i16; WINDOW_LENGTH];
    block::words(m, 83, &mut words);
    Far {
        count: word(m, 70),
        clean: word(m, 71),
        status: word(m, 72),
        tail,
        words,
    }
}

// The words in front of the slots.
fn front(p: Params, h: Far) -> [i16; FRONT_LENGTH]
    ensures { result ≡ write_params p ++ far_words h }
{
    let block = state::write_block(p, &[0i16; 234], &[0i16; SPEECH_LENGTH]);
    let mut out = [0i16; FRONT_LENGTH];
    block::put(&mut out, 0, &block[..70]);
    block::put_word(&mut out, 70, h.count);
    block::put_word(&mut out, 71, h.clean);
    block::put_word(&mut out, 72, h.status);
    let tail = h.tail;
    block::put(&mut out, 73, &tail);
    let words = h.words;
    block::put(&mut out, 83, &words);
    out
}

// ---- counts

// The number of a voice frame in the count.
fn next_count(n: i16, parity: bool) -> i16
    ensures { result ≡ next_count n parity }
{
    if (n < 1) & !parity {
        return 0;
    }
    if n < 32767 { n + 1 } else { n }
}

// Whether frame n, with parameters v and far samples y, tells its excitation.
fn tells(n: i16, v: Decoded, y: &[i16; FRAME_LENGTH]) -> bool
    ensures { result ≡ tells n v y.now }
{
    let first = v.first;
    let second = v.second;
    let a = first.a;
    let b = second.a;
    (5 < n) & (inverse::bounded(&a) & (inverse::bounded(&b) & inverse::inside(y)))
}

fn next_clean(c: i16, told: bool) -> i16
    ensures { result ≡ next_clean c told }
{
    if !told {
        return 0;
    }
    if c < 2 { c + 1 } else { 2 }
}

// ---- the candidates of a voice frame

// Whether new candidates are taken from the last two frames.
fn taken(h: Far) -> bool
    ensures { result ≡ taken h }
{
    (1 < h.clean) & ((h.status < 1) | (1 < h.status))
}

fn known(h: Far) -> bool
    ensures { result ≡ known h }
{
    taken(h) | (0 < h.status)
}

// The slots with new candidates, where these are taken.
fn take_candidates(h: Far, s: &mut [i16])
    ensures { s.new ≡ cond (taken h) (candidates h.words h.tail s.old) s.old }
{
    if taken(h) {
        let words = h.words;
        let tail = h.tail;
        slots::candidates(&words, &tail, s);
    }
}

// The slots behind the frame, before those that don't fit are dropped.
fn slots_tried(t: &[i16], v: Decoded, y: &[i16; FRAME_LENGTH], h: Far, s: &mut [i16])
    ensures { s.new ≡ slots_tried t.now v y.now h s.old }
{
    take_candidates(h, s);
    if known(h) {
        slots::all_tried(t, v, y, s);
    }
}

// Where the candidate that gave the most samples first differs.
fn first_difference(y: &[i16; FRAME_LENGTH], s: &[i16]) -> Difference
    ensures { result ≡ first_difference y.now s.now }
{
    let i = slots::best(s);
    let z = slots::computed(s, i);
    let sample = pitch::nat(slots::fit(s, i));
    let at = sample as usize;
    let rest = word(y, at) as i32 - word(&z, at) as i32;
    Difference { sample, rest }
}

// What the candidates in the slots behind the frame say of it.
fn look(y: &[i16; FRAME_LENGTH], h: Far, s: &[i16]) -> Seen
    ensures { result ≡ look y.now h s.now }
{
    let known = known(h);
    let found = known & slots::fits(s, slots::best(s));
    let difference = first_difference(y, s);
    Seen {
        known,
        found,
        difference,
    }
}

// ---- what is kept behind a voice frame

fn breaks(h: Far, x: Seen) -> bool
    ensures { result ≡ breaks h x }
{
    x.known & (!x.found & (taken(h) | (h.status < 2)))
}

fn next_status(h: Far, x: Seen) -> i16
    ensures { result ≡ next_status h x }
{
    if x.found {
        return 1;
    }
    if x.known & !taken(h) { 2 } else { 0 }
}

// The words of the last two frames, with those that frame y tells.
fn next_words(v: Decoded, y: &[i16; FRAME_LENGTH], h: Far) -> [i16; WINDOW_LENGTH]
    ensures { result ≡ drop frame_length h.words ++ map word (frame_words v.first.a v.second.a (h.tail ++ y.now)) }
{
    let first = v.first;
    let second = v.second;
    let a = first.a;
    let b = second.a;
    let tail = h.tail;
    let mut speech = [0i16; SPEECH_LENGTH];
    block::put(&mut speech, 0, &tail);
    block::put(&mut speech, TAIL_LENGTH, y);
    let e = inverse::frame_words(&a, &b, &speech);
    let words = h.words;
    let past = &words[..];
    let mut out = [0i16; WINDOW_LENGTH];
    block::put(&mut out, 0, &past[FRAME_LENGTH..]);
    block::put(&mut out, FRAME_LENGTH, &e);
    out
}

// Of frame n, with no window: where the far samples are a candidate's none is needed, and behind a concealed frame there is none.
fn plain_far(n: i16, status: i16, y: &[i16; FRAME_LENGTH], h: Far) -> Far
    ensures { result ≡ record { count = n; clean = pos 0; status = status; tail = drop 70 y.now; words = h.words } }
{
    let tail = block::words_at::<10>(y, 70);
    let words = h.words;
    Far {
        count: n,
        clean: 0,
        status,
        tail,
        words,
    }
}

// How many frames in a row told their excitation.
fn clean_after(told: bool, h: Far, x: Seen) -> i16
    ensures { result ≡ cond (breaks h x) (negsuc 0) (next_clean h.clean told) }
{
    if breaks(h, x) {
        return -1;
    }
    next_clean(h.clean, told)
}

fn voice_far(n: i16, v: Decoded, y: &[i16; FRAME_LENGTH], told: bool, h: Far, x: Seen) -> Far
    ensures { result ≡ voice_far n v y.now told h x }
{
    if x.found {
        return plain_far(n, 1, y, h);
    }
    let tail = block::words_at::<10>(y, 70);
    let words = next_words(v, y, h);
    Far {
        count: n,
        clean: clean_after(told, h, x),
        status: next_status(h, x),
        tail,
        words,
    }
}

// ---- a frame

#[tactic(auto, unfolding(crate::specs::Compare::class))]
fn class_of(n: i16, told: bool, x: Seen) -> Class
    ensures { result ≡ class n told x }
{
    if x.known {
        if x.found {
            return Class::Known;
        }
        return Class::Differs(x.difference);
    }
    if (5 < n) & !told {
        return Class::NotClean(pitch::nat(n));
    }
    Class::Settling(pitch::nat(n))
}

// The samples of the best candidate, where there is one.
fn hand_out(h: Far, s: &[i16], out: &mut [i16])
    ensures { length out.old ≡ frame_length → out.new ≡ cond (known h) (computed s.now (best s.now)) out.old }
{
    if known(h) {
        let z = slots::computed(s, slots::best(s));
        block::copy(out, &z);
    }
}

// The slots that a frame leaves.
fn slots_left(found: bool, s: &mut [i16])
    ensures { s.new ≡ cond found (only_fitting s.old) s.old }
{
    if found {
        slots::only_fitting(s);
    }
}

// A voice frame: the slots move on, and the samples of the best candidate are handed out. Answers what the candidates say.
fn slots_step(
    t: &[i16],
    v: Decoded,
    y: &[i16; FRAME_LENGTH],
    h: Far,
    s: &mut [i16],
    out: &mut [i16],
) -> Seen
    ensures value { result ≡ look y.now h (slots_tried t.now v y.now h s.old) }
    ensures s_after { s.new ≡ slots_left h (slots_tried t.now v y.now h s.old) }
    ensures out_after { length out.old ≡ frame_length → out.new ≡ cond (known h) (computed (slots_tried t.now v y.now h s.old) (best (slots_tried t.now v y.now h s.old))) out.old }
{
    slots_tried(t, v, y, h, s);
    let x = look(y, h, s);
    hand_out(h, s, out);
    slots_left(x.found, s);
    x
}

// What a frame leaves of the far samples, and what it is. The slots and the samples are written.
#[derive(Clone, Copy)]
pub struct Left {
    pub far: Far,
    pub class: Class,
}

fn voice_step(
    t: &[i16],
    f: SpeechParams,
    v: Decoded,
    y: &[i16; FRAME_LENGTH],
    h: Far,
    s: &mut [i16],
    out: &mut [i16],
) -> Left
    ensures { length out.old ≡ frame_length → left_of result s.new out.new ≡ voice_step t.now f v y.now out.old h s.old }
{
    let n = next_count(h.count, pitch::parity_ok(f.p1, f.p0));
    let x = slots_step(t, v, y, h, s, out);
    let told = tells(n, v, y);
    let far = voice_far(n, v, y, told, h, x);
    let class = class_of(n, told, x);
    Left { far, class }
}

fn step(
    t: &[i16],
    d: Decision,
    v: Decoded,
    y: &[i16; FRAME_LENGTH],
    h: Far,
    s: &mut [i16],
    out: &mut [i16],
) -> Left
    ensures { length out.old ≡ frame_length → left_of result s.new out.new ≡ step t.now d v y.now out.old h s.old }
{
    match d {
        Decision::Voice(f) => voice_step(t, f, v, y, h, s, out),
        Decision::Concealment => {
            let far = plain_far(0, 0, y, h);
            let class = Class::Concealed;
            Left { far, class }
        }
    }
}

// ---- the operations

// Whether the memory can be used: it has its length, and a predictor and a delay in range.
#[tactic(auto, unfolding(crate::specs::Compare::memory_check))]
fn memory_check(m: &[i16]) -> Result<(), Refusal>
    ensures { code result ≡ memory_check m.now }
{
    if m.len() != COMPARE_LENGTH {
        return Err(Refusal::StateLength);
    }
    if !state::accepted(m) {
        return Err(Refusal::StateValues);
    }
    Ok(())
}

// The first refusal that applies.
#[tactic(auto, unfolding(crate::specs::Compare::refusal, decoder::specs::Call::first_of))]
fn check(
    t: &[i16],
    m: &[i16],
    kind: u32,
    payload: &[u8],
    samples: usize,
    room: usize,
) -> Result<(), Refusal>
    ensures { code result ≡ refusal t.now m.now kind payload.now samples room }
{
    tables::table_check(t)?;
    memory_check(m)?;
    decoder::input_check(kind, payload, samples)?;
    decoder::input_check(kind, payload, room)
}

// A frame on memory that is accepted.
fn stepped(t: &[i16], m: &mut [i16], d: Decision, y: &[i16], out: &mut [i16]) -> Class
    requires m_len { length m.old ≡ compare_length }
    requires y_len { length y.now ≡ frame_length }
    requires out_len { length out.old ≡ frame_length }
    ensures { Answer.answer (Ok result) m.new out.new ≡ stepped t.now m.old d y.now out.old }
{
    let v = parameters::parameters(t, d, state::read_params(m));
    let h = read_far(m);
    let mut far = [0i16; FRAME_LENGTH];
    block::words(y, 0, &mut far);
    let r = step(t, d, v, &far, h, &mut m[FRONT_LENGTH..], out);
    block::put(m, 0, &front(v.params, r.far));
    r.class
}

// One frame of the call with the far samples y that belong to it: what it is, with the memory moved on and, where there are candidates, the 80 samples of the best in `out`; or why it is refused, and both as they were.
#[tactic(auto, unfolding(crate::specs::Compare::compare))]
pub fn compare(
    t: &[i16],
    m: &mut [i16],
    kind: u32,
    payload: &[u8],
    y: &[i16],
    out: &mut [i16],
) -> Result<Class, Refusal>
    ensures { Answer.answer (numbered result) m.new out.new ≡ compare t.now m.old kind payload.now y.now out.old }
{
    check(t, m, kind, payload, y.len(), out.len())?;
    Ok(stepped(t, m, plc::decide(kind, payload), y, out))
}

// The memory before the first frame; or why it is refused, and the memory as it was.
#[tactic(auto, unfolding(crate::specs::Compare::begin))]
pub fn begin(t: &[i16], m: &mut [i16]) -> Result<(), Refusal>
    ensures { Begun.begun (code result) m.new ≡ begin t.now m.old }
{
    tables::table_check(t)?;
    if m.len() != COMPARE_LENGTH {
        return Err(Refusal::StateLength);
    }
    let none = Far {
        count: 0,
        clean: 0,
        status: 0,
        tail: [0; TAIL_LENGTH],
        words: [0; WINDOW_LENGTH],
    };
    let words = front(state::fresh_params(t), none);
    m.fill(0);
    block::put(m, 0, &words);
    Ok(())
}
