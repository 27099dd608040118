// What a resumed job decides before it writes and between its parts: whether OUT and STATE.new are such as these programs leave, whether the files are different ones, and when a
// state is saved. The files are the program's.
#![tactic(auto)]

ghost use Rattle.std.specs.Prelude.{◌≡◌, cond, ◌∷◌, []};
ghost use Rattle.refusal.specs.Refusal.{code};
ghost use Rattle.laws.specs.Bytes.{same};
ghost use Rattle.job_step.specs.Step.{due, fits, like, frame_form, own_output, own_state, last_printed, tail_at, out_check, one, different};

use block::places::{FRAME_LENGTH, STATE_LENGTH, TAIL_LENGTH};
use job::Saved;
use print::FRAME_ROOM;
use refusal::Refusal;

// A file by its device and inode number, where it is there.
#[derive(Clone, Copy)]
pub struct File {
    pub there: bool,
    pub device: u64,
    pub inode: u64,
}

// Lines between two saved states: ten minutes of voice.
pub const EACH: u32 = 60000;

// How many bytes the last ten samples are in a frame's form, with its end.
pub const TAIL_ROOM: usize = 4 * TAIL_LENGTH + 2;

// Whether EACH or more lines were taken since the state of so many lines was saved.
pub fn due(p: Saved, saved: u32) -> bool
    ensures { result ≡ due p saved }
{
    saved as u64 + EACH as u64 <= p.lines as u64
}

// Whether a byte is that of a form, where `h` is any digit.
fn fits(a: u8, b: u8) -> bool
    ensures { result ≡ fits a b }
{
    if b == b'h' { text::is_digit(a) } else { a == b }
}

// Whether a text begins like a form, as far as both go.
fn like(text: &[u8], form: &[u8]) -> bool
    ensures { result ≡ like text.now form.now }
{
    for i in 0..text.len().min(form.len()) {
        if !fits(text[i], form[i]) {
            return false;
        }
    }
    true
}

// A frame's form, with `h` for each digit.
fn frame_form() -> [u8; FRAME_ROOM]
    ensures { result ≡ frame_form }
{
    let mut form = [b'h'; FRAME_ROOM];
    octets::copy(b"(pcm ", &mut form);
    octets::copy(b")\n", &mut form[FRAME_ROOM - 2..]);
    form
}

// Whether these are the first bytes of an output, as many as there are up to FRAME_ROOM.
pub fn own_output(front: &[u8]) -> bool
    ensures { result ≡ own_output front.now }
{
    let form = frame_form();
    like(front, &form) | (like(front, b"(total ") | like(front, b"(refused "))
}

// Whether a file of this length with these first bytes, four or as many as there are, is a job file or the beginning of one: a STATE.new that this program may have left.
pub fn own_state(front: &[u8], length: u64) -> bool
    ensures { result ≡ own_state front.now length }
{
    (length <= job::LENGTH as u64) & like(front, b"HDMK")
}

// Whether these bytes are the last ten samples of a state block, as they end a frame's form.
fn own_tail(b: &[i16; 234], tail: &[u8]) -> bool
    ensures { result ≡ same tail.now (last_printed b.now) }
{
    // They are the last of as many words as a frame has.
    let mut samples = [0i16; FRAME_LENGTH];
    block::words(b, STATE_LENGTH - FRAME_LENGTH, &mut samples);
    let mut form = [0u8; FRAME_ROOM];
    print::pcm(&samples, &mut form);
    text::same(tail, &form[FRAME_ROOM - TAIL_ROOM..])
}

// Where in OUT the last TAIL_ROOM bytes begin that this job has written; 0 where there are none.
pub fn tail_at(p: Saved) -> u64
    ensures { result ≡ tail_at p }
{
    p.written.saturating_sub(TAIL_ROOM as u64)
}

// The answer for an OUT that is the job's or isn't.
fn answer(own: bool) -> Result<(), Refusal>
    ensures { code result ≡ cond own 0 27 }
{
    if own {
        Ok(())
    } else {
        Err(Refusal::OtherOutput)
    }
}

// Whether OUT, of this length, is this job's; 27 where it isn't. `front` are its first bytes, FRAME_ROOM or as many as there are; `tail` those from `tail_at` up to `p.written`.
pub fn out_check(
    p: Saved,
    b: &[i16; 234],
    length: u64,
    front: &[u8],
    tail: &[u8],
) -> Result<(), Refusal>
    ensures { code result ≡ out_check p b.now length front.now tail.now }
{
    if p.written == 0 {
        return answer(own_output(front));
    }
    answer((p.written <= length) & own_tail(b, tail))
}

// Whether both are there and are one file.
fn one(x: File, y: File) -> bool
    ensures { result ≡ one x y }
{
    x.there & (y.there & ((x.device == y.device) & (x.inode == y.inode)))
}

// Whether those of five files that are there are different ones: the tables, CALL, STATE, OUT and STATE.new.
pub fn apart(tables: File, call: File, state: File, out: File, aside: File) -> bool
    ensures { result ≡ different (tables ∷ call ∷ state ∷ out ∷ aside ∷ []) }
{
    !(one(tables, call) | (one(tables, state) | (one(tables, out) | one(tables, aside))))
        & (!(one(call, state) | (one(call, out) | one(call, aside)))
            & (!(one(state, out) | one(state, aside)) & !one(out, aside)))
}
