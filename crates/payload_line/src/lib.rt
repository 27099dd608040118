// A line of a payload text, without its line feed: an RTP payload in hexadecimal digits, or a line of a call. It becomes lines of a call (01, "The call text and the program"),
// or the form of its refusal. The digits of a frame are copied as they are: that they are those of its bytes is proved.
#![tactic(auto)]

ghost use Rattle.std.specs.Prelude.{◌≡◌, true, ◌++◌, ◌+◌, ◌*◌, ◌/◌, ◌≤◌, ◌<◌, length};
ghost use Rattle.text.specs.Text.{ascii, Put};
ghost use Rattle.line.specs.Line.{is_hex};
ghost use Rattle.rtp.specs.Rtp.{frames};
ghost use Rattle.payload_line.specs.PayloadLine.{longest, room, refusal, ended, frame_line, frame_lines, payload, of_payload, is_line, payload_line, Answer, given};

use print::FORM_ROOM;

// The digits of the longest payload, 65,535 bytes.
pub const LONGEST: usize = 131070;

// Room for what is printed for a line: 6,554 lines of at most 37 bytes.
pub const ROOM: usize = 242498;

// 0, or the number of a line's refusal; and how many bytes were printed for it.
#[derive(Clone, Copy)]
pub struct Printed {
    pub code: u32,
    pub written: usize,
}

// Writes `opening`, the digits, `))` and a line feed at a place, and answers the place behind them.
fn put_line(opening: &[u8], digits: &[u8], from: usize, out: &mut [u8]) -> usize
    requires { from + (length opening.now + (length digits.now + 3)) ≤ length out.old }
    ensures { Put (opening.now ++ (digits.now ++ ascii "))\n")) from out.old result out.new }
{
    let a = print::put(opening, from, out);
    let b = print::put(digits, a, out);
    print::put(b"))\n", b, out)
}

// The line of frame `index` of the payload that has these digits.
fn put_frame(text: &[u8], index: usize, from: usize, out: &mut [u8]) -> usize
    requires { (is_hex text.now ≡ true) × ((index < (frames (length text.now / 2)).frames) × (from + 37 ≤ length out.old)) }
    ensures { (result ≤ from + 37) × Put (frame_line (payload text.now) index) from out.old result out.new }
{
    let found = rtp::find_of(text.len() / 2, index);
    let start = 2 * found.start;
    let end = start + 2 * found.length;
    if found.kind == 0 {
        return put_line(b"(frame (voice ", &text[start..end], from, out);
    }
    put_line(b"(frame (sid ", &text[start..end], from, out)
}

// The lines of all its frames, at the front.
fn put_frames(text: &[u8], count: usize, out: &mut [u8]) -> usize
    requires { (is_hex text.now ≡ true) × ((count ≡ (frames (length text.now / 2)).frames) × (37 * count ≤ length out.old)) }
    ensures { Put (frame_lines (payload text.now) count) 0 out.old result out.new }
{
    let mut at = 0;
    for k in 0..count {
        at = put_frame(text, k, at, out);
    }
    at
}

// The form of a refusal, at the front.
fn refuse(code: u32, number: u32, out: &mut [u8]) -> Printed
    requires { length out.old ≡ room }
    ensures { Answer.answer result.code result.written out.new ≡ given (refusal code number) out.old }
{
    let mut form = [0u8; FORM_ROOM];
    let n = print::refused(code, number, &mut form);
    let written = print::put(&form[0..n], 0, out);
    Printed { code, written }
}

// A line that has the digits of a payload.
fn of_payload(text: &[u8], number: u32, out: &mut [u8]) -> Printed
    requires { (is_hex text.now ≡ true) × ((length text.now ≤ longest) × (length out.old ≡ room)) }
    ensures { Answer.answer result.code result.written out.new ≡ given (of_payload number (payload text.now)) out.old }
{
    let counted = rtp::frames_of(text.len() / 2);
    if counted.code != 0 {
        return refuse(counted.code, number, out);
    }
    let written = put_frames(text, counted.frames, out);
    Printed { code: 0, written }
}

// Whether a text is a line of a call.
fn is_line(text: &[u8]) -> bool
    ensures { result ≡ is_line text.now }
{
    let mut payload = [0u8; 10];
    line::line(text, &mut payload).is_ok()
}

// A text and a line feed, at the front.
fn put_ended(text: &[u8], out: &mut [u8]) -> usize
    requires { length text.now < length out.old }
    ensures { Put (ended text.now) 0 out.old result out.new }
{
    let a = print::put(text, 0, out);
    print::put(b"\n", a, out)
}

// `payload_line` on a slice.
fn step(text: &[u8], number: u32, out: &mut [u8]) -> Printed
    requires { length out.old ≡ room }
    ensures { Answer.answer result.code result.written out.new ≡ given (payload_line number text.now) out.old }
{
    if LONGEST < text.len() {
        return refuse(9, number, out);
    }
    if line::is_hex(text) {
        return of_payload(text, number, out);
    }
    if is_line(text) {
        let written = put_ended(text, out);
        return Printed { code: 0, written };
    }
    refuse(9, number, out)
}

// The line with this number: 9 where it is neither a payload nor a line of a call, 12 where the payload's length leaves a remainder other than 0 or 2 by ten. What is printed for it is at the
// front of `out`, and the bytes behind it are as they were.
pub fn payload_line(text: &[u8], number: u32, out: &mut [u8; ROOM]) -> Printed
    ensures out_after { Answer.answer result.code result.written out.new ≡ given (payload_line number text.now) out.old }
    ensures written_le_room { result.written ≤ room }
{
    step(text, number, out)
}
