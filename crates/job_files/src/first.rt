// Whether an OUT that a new job finds was printed for the same call, so that no other call's samples are written over.
use job::{Saved, parts};
use print::FRAME_ROOM;

// Whether a text begins like a form, as far as both go.
fn begins(text: &[u8], form: &[u8]) -> bool {
    text.starts_with(form) || form.starts_with(text)
}

// Whether OUT begins with what the front of the call prints: its first frame, or a last form where it has none.
pub(crate) fn is_of(t: &[i16; 1880], b: &[i16; 234], p: Saved, call: &[u8], front: &[u8]) -> bool {
    let mut copy = *b;
    let mut form = [0u8; FRAME_ROOM];
    let part = parts::part(t, &mut copy, p, 1, call, &mut form);
    let n = part.written;
    if n == 0 {
        return begins(front, b"(total ") | begins(front, b"(refused ");
    }
    begins(front, &form[..n])
}
