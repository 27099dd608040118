// A turn of a comparison: as many frames as both files have at hand, each line with its far samples, what is counted of them and what is printed.
#![tactic(auto)]

ghost use Rattle.std.specs.Prelude.{◌≡◌, ◌+◌, ◌^◌, ◌<◌, ◌≤◌, length};
ghost use Rattle.far.specs.Far.{form_of};
ghost use Rattle.compare_turn.specs.Turn.{Within, start, at_hand, call_at, far_at, with_far, without_far, next};

use compare_step::Class;
use count::Counts;
use far::Form;
use line::LONGEST;
use print::FRAME_ROOM;
use refusal::Refusal;
use report::forms::ROOM;
use report::{First, Stretch, Tally};

// The bytes of the most that is printed for a frame: the end of a stretch, and its own form.
const STEP_ROOM: usize = 2 * ROOM;

// What a file has at hand, each with its number.
#[derive(Clone, Copy, Debug, PartialEq, Eq)]
pub enum AtHand {
    // Too little to tell.
    Wait = 0,
    // A whole line or frame.
    Ready = 1,
    // No line though there are bytes.
    Bad = 2,
    // Nothing more.
    End = 3,
}

// What a number says is at hand; another number says that it is a line or frame.
impl From<u32> for AtHand {
    ghost from_gives = { λ n a. a ≡ at_hand n };

    fn from(n: u32) -> Self {
        match n {
            0 => AtHand::Wait,
            2 => AtHand::Bad,
            3 => AtHand::End,
            _ => AtHand::Ready,
        }
    }
}

// What follows.
#[derive(Clone, Copy, Debug, PartialEq, Eq)]
pub enum Follows {
    // A further turn.
    Go,
    Read,
    // A line is refused.
    Refuse,
    FarEnds,
    CallEnds,
    // Both have ended.
    Done,
}

// How far a comparison is: 0, or the number of the refusal that ended it; and what was counted.
// The code is a number and no Option, as that of `Progress`: `turn`, which README names, takes any, and one that no refusal has ends a comparison too.
#[derive(Clone, Copy)]
pub struct Standing {
    pub code: u32,
    pub tally: Tally,
    pub stretch: Option<Stretch>,
    pub first: Option<First>,
}

// The standing behind a frame, and how many bytes were printed, of the report and of the samples.
#[derive(Clone, Copy)]
pub struct Stepped {
    pub at: Standing,
    pub written: usize,
    pub printed: usize,
}

// The standing behind a turn; how many bytes of the call and of the far end were taken; and how many were printed.
#[derive(Clone, Copy)]
pub struct Taken {
    pub at: Standing,
    pub line: usize,
    pub frame: usize,
    pub written: usize,
    pub printed: usize,
}

// Before the first frame.
pub fn start() -> Standing
    ensures { result ≡ start }
{
    Standing {
        code: 0,
        tally: Tally::none(),
        stretch: None,
        first: None,
    }
}

// A refused frame prints nothing, and what was counted stays.
fn stopped(at: Standing, r: Refusal) -> Stepped
    ensures { (result.written ≡ 0) × (result.printed ≡ 0) }
{
    Stepped {
        at: Standing {
            code: r.number(),
            ..at
        },
        written: 0,
        printed: 0,
    }
}

// What was counted, with a frame.
fn counted(from: Standing, counts: Counts, c: Class) -> Standing {
    let n = counts.frames;
    Standing {
        code: 0,
        tally: from.tally.add(counts, c),
        stretch: report::reached(from.stretch, n, c),
        first: report::earliest(from.first, n, c),
    }
}

// The form of a stretch whose last frame is `to`, at the front of `out`, where there is one.
fn close(s: Option<Stretch>, to: u32, out: &mut [u8]) -> usize
    requires { 160 ≤ length out.old }
    ensures { result ≤ 160 }
{
    let Some(s) = s else {
        return 0;
    };
    let mut form = [0u8; ROOM];
    let n = report::forms::stretch(s, to, &mut form);
    octets::copy(&form[0..n], out)
}

// The stretch that ends before a frame of this class.
fn ended(s: Option<Stretch>, c: Class) -> Option<Stretch> {
    if report::computed(c) { None } else { s }
}

// What is printed for frame n: the stretch that ends before it with frame `last`, and its form.
fn print(before: Option<Stretch>, last: u32, n: u32, c: Class, out: &mut [u8]) -> usize
    requires { 320 ≤ length out.old }
    ensures { result ≤ 320 }
{
    let at = close(ended(before, c), last, out);
    let mut form = [0u8; ROOM];
    let k = report::forms::frame(n, c, &mut form);
    at + octets::copy(&form[0..k], &mut out[at..])
}

// The samples that were computed for a frame, in the printed form, or `(none)`; nothing where they are not wanted.
fn samples(wanted: bool, c: Class, computed: &[i16; 80], out: &mut [u8]) -> usize
    requires { 327 ≤ length out.old }
    ensures { result ≤ 327 }
{
    if !wanted {
        return 0;
    }
    if !report::computed(c) {
        return octets::copy(b"(none)\n", out);
    }
    let mut form = [0u8; FRAME_ROOM];
    let n = print::pcm(computed, &mut form);
    octets::copy(&form[0..n], out)
}

// A frame with its answer: it is printed and counted.
fn answered(
    from: Standing,
    counts: Counts,
    c: Class,
    wanted: bool,
    computed: &[i16; 80],
    out: &mut [u8],
    pcm: &mut [u8],
) -> Stepped
    requires { (320 ≤ length out.old) × (327 ≤ length pcm.old) }
    ensures { (result.written ≤ 320) × (result.printed ≤ 327) }
{
    Stepped {
        at: counted(from, counts, c),
        written: print(
            from.stretch,
            from.tally.counts.frames,
            counts.frames,
            c,
            out,
        ),
        printed: samples(wanted, c, computed, pcm),
    }
}

// A frame that the counts have: it is compared.
fn compared(
    t: &[i16],
    m: &mut [i16],
    from: Standing,
    counts: Counts,
    kind: u32,
    payload: &[u8],
    far: &[i16; 80],
    wanted: bool,
    out: &mut [u8],
    pcm: &mut [u8],
) -> Stepped
    requires { (320 ≤ length out.old) × (327 ≤ length pcm.old) }
    ensures { (result.written ≤ 320) × (result.printed ≤ 327) }
{
    let mut computed = [0i16; 80];
    match compare_step::compare(t, m, kind, payload, far, &mut computed) {
        Err(r) => stopped(from, r),
        Ok(c) => answered(from, counts, c, wanted, &computed, out, pcm),
    }
}

// A frame of this kind: it is counted first, and the first refusal ends the comparison.
fn frame(
    t: &[i16],
    m: &mut [i16],
    from: Standing,
    kind: u32,
    payload: &[u8],
    far: &[i16; 80],
    wanted: bool,
    out: &mut [u8],
    pcm: &mut [u8],
) -> Stepped
    requires { (320 ≤ length out.old) × (327 ≤ length pcm.old) }
    ensures { (result.written ≤ 320) × (result.printed ≤ 327) }
{
    match count::count(kind, rule::frame_rules(kind, payload), from.tally.counts) {
        Err(r) => stopped(from, r),
        Ok(next) => compared(t, m, from, next, kind, payload, far, wanted, out, pcm),
    }
}

// A line of the call and the far samples of its frame.
fn step(
    t: &[i16],
    m: &mut [i16],
    from: Standing,
    text: &[u8],
    far: &[i16; 80],
    wanted: bool,
    out: &mut [u8],
    pcm: &mut [u8],
) -> Stepped
    requires { (320 ≤ length out.old) × (327 ≤ length pcm.old) }
    ensures { (result.written ≤ 320) × (result.printed ≤ 327) }
{
    let mut payload = [0u8; 10];
    match line::line(text, &mut payload) {
        Err(r) => stopped(from, r),
        Ok(kind) => {
            let n = kind::payload_length(kind);
            frame(t, m, from, kind, &payload[..n], far, wanted, out, pcm)
        }
    }
}

// The frame at the front of both files; no byte of either is taken where one has none.
fn take(
    t: &[i16],
    m: &mut [i16],
    from: Standing,
    form: Form,
    call: &[u8],
    far: &[u8],
    wanted: bool,
    out: &mut [u8],
    pcm: &mut [u8],
) -> Taken
    requires { (320 ≤ length out.old) × (327 ≤ length pcm.old) }
    ensures { (result.line ≤ length call.now) × ((result.frame ≤ length far.now) × ((result.written ≤ 320) × (result.printed ≤ 327))) }
{
    let end = octets::find(call, 0, call.len(), 10);
    if end == call.len() {
        return nothing(from);
    }
    let Some(found) = form.frame(far) else {
        return nothing(from);
    };
    let s = step(t, m, from, &call[0..end], &found.samples, wanted, out, pcm);
    Taken {
        at: s.at,
        line: end + 1,
        frame: found.bytes,
        written: s.written,
        printed: s.printed,
    }
}

// Nothing was taken.
fn nothing(at: Standing) -> Taken
    ensures { (result.line ≡ 0) × ((result.frame ≡ 0) × ((result.written ≡ 0) × (result.printed ≡ 0))) }
{
    Taken {
        at,
        line: 0,
        frame: 0,
        written: 0,
        printed: 0,
    }
}

// What was taken of a part and of the next, together.
fn both(a: Taken, b: Taken) -> Taken
    requires { (a.line + b.line < 2 ^ 64) × ((a.frame + b.frame < 2 ^ 64) × ((a.written + b.written < 2 ^ 64) × (a.printed + b.printed < 2 ^ 64))) }
    ensures { (result.line ≡ a.line + b.line) × ((result.frame ≡ a.frame + b.frame) × ((result.written ≡ a.written + b.written) × (result.printed ≡ a.printed + b.printed))) }
{
    Taken {
        at: b.at,
        line: a.line + b.line,
        frame: a.frame + b.frame,
        written: a.written + b.written,
        printed: a.printed + b.printed,
    }
}

// One frame more behind those that were taken.
fn behind(
    t: &[i16],
    m: &mut [i16],
    all: Taken,
    form: Form,
    call: &[u8],
    far: &[u8],
    wanted: bool,
    out: &mut [u8],
    pcm: &mut [u8],
) -> Taken
    requires { Within call.now far.now (length out.old) (length pcm.old) all × ((all.written + 320 ≤ length out.old) × (all.printed + 327 ≤ length pcm.old)) }
    ensures { (all.line ≤ result.line) × Within call.now far.now (length out.old) (length pcm.old) result }
{
    let line = all.line;
    let frame = all.frame;
    let written = all.written;
    let printed = all.printed;
    let at = all.at;
    let one = take(
        t,
        m,
        at,
        form,
        &call[line..],
        &far[frame..],
        wanted,
        &mut out[written..],
        &mut pcm[printed..],
    );
    both(all, one)
}

// One frame more, where there is room for what it may print.
fn more(
    t: &[i16],
    m: &mut [i16],
    all: Taken,
    form: Form,
    call: &[u8],
    far: &[u8],
    wanted: bool,
    out: &mut [u8],
    pcm: &mut [u8],
) -> Taken
    requires { Within call.now far.now (length out.old) (length pcm.old) all }
    ensures { (all.line ≤ result.line) × Within call.now far.now (length out.old) (length pcm.old) result }
{
    if out.len() - all.written < STEP_ROOM {
        return all;
    }
    if pcm.len() - all.printed < FRAME_ROOM {
        return all;
    }
    if all.at.code != 0 {
        return all;
    }
    behind(t, m, all, form, call, far, wanted, out, pcm)
}

// Takes frames until a file has none at hand, there is no room for what one may print, or one is refused. The far file's form is a number here and below: any is taken.
pub fn turn(
    t: &[i16],
    m: &mut [i16],
    from: Standing,
    form: u32,
    call: &[u8],
    far: &[u8],
    wanted: bool,
    out: &mut [u8],
    pcm: &mut [u8],
) -> Taken
    ensures { Within call.now far.now (length out.old) (length pcm.old) result }
{
    let form = Form::from(form);
    let mut all = nothing(from);
    let mut going = true;
    // No `for`: a turn that takes no line is the last, and no number of turns is known.
    while going {
        let next = more(t, m, all, form, call, far, wanted, out, pcm);
        going = all.line < next.line;
        all = next;
    }
    all
}

// What a call has at hand, whose file has ended or not.
pub fn call_at(call: &[u8], ended: bool) -> AtHand
    ensures { result ≡ call_at call.now ended }
{
    let n = octets::find(call, 0, call.len(), 10);
    if n < call.len() {
        return AtHand::Ready;
    }
    if LONGEST < n {
        return AtHand::Bad;
    }
    if !ended {
        return AtHand::Wait;
    }
    if n == 0 {
        return AtHand::End;
    }
    AtHand::Bad
}

// What a file of far samples has at hand: a printed one ends before a line of another form.
pub fn far_at(form: u32, far: &[u8], ended: bool) -> AtHand
    ensures { result ≡ far_at (form_of form) far.now ended }
{
    let form = Form::from(form);
    if form.frame(far).is_some() {
        return AtHand::Ready;
    }
    if (far.len() < FRAME_ROOM) & !ended {
        return AtHand::Wait;
    }
    AtHand::End
}

// What follows where there is a far frame, or bytes that may become one.
fn with_far(call: AtHand) -> Follows
    ensures { result ≡ with_far call }
{
    match call {
        AtHand::Wait => Follows::Read,
        AtHand::Ready => Follows::Go,
        AtHand::Bad => Follows::Refuse,
        AtHand::End => Follows::CallEnds,
    }
}

// What follows where the far file has ended.
fn without_far(call: AtHand) -> Follows
    ensures { result ≡ without_far call }
{
    match call {
        AtHand::Wait => Follows::Read,
        AtHand::Ready => Follows::FarEnds,
        AtHand::Bad => Follows::FarEnds,
        AtHand::End => Follows::Done,
    }
}

// What follows, by the numbers of what both have at hand. A line is refused only where there are samples for it.
pub fn next(call: u32, far: u32) -> Follows
    ensures { result ≡ next (at_hand call) (at_hand far) }
{
    let call = AtHand::from(call);
    let far = AtHand::from(far);
    match far {
        AtHand::Wait => Follows::Read,
        AtHand::Ready => with_far(call),
        AtHand::Bad => with_far(call),
        AtHand::End => without_far(call),
    }
}
