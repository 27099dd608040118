// A line of the call text (01), without its line feed: the operation Line reads one, and `write` is its inverse.
#![tactic(auto)]

ghost use Rattle.std.specs.Prelude.{◌≡◌, ◌++◌, ◌+◌, ◌*◌, ◌≤◌, length, drop};
ghost use Rattle.std.specs.List.{list_all};
ghost use Rattle.laws.specs.Digits.{is_digit};
ghost use Rattle.refusal.specs.Refusal.{numbered};
ghost use Rattle.text.specs.Text.{Put};
ghost use Rattle.line.specs.Line.{pair, hex, opening, form, bytes, is_hex, is_form, Answer, line};
ghost use Rattle.line.specs.Write as writing;

use refusal::Refusal;

// The bytes of the shortest line.
pub const SHORTEST: usize = 14;

// The bytes of the longest line.
pub const LONGEST: usize = 36;

// Whether all bytes are digits.
fn digits(bytes: &[u8]) -> bool
    ensures { result ≡ list_all is_digit bytes.now }
{
    bytes.iter().all(|b| text::is_digit(*b))
}

// Whether a text is two digits for each of some bytes.
pub fn is_hex(text: &[u8]) -> bool
    ensures { result ≡ is_hex text.now }
{
    text.len() % 2 == 0 && digits(text)
}

// What stands before the digits of a kind: a case for each, as 01 has a form for each.
fn opening(kind: u32) -> &'static [u8]
    ensures { result.now ≡ opening kind }
{
    match kind {
        0 => b"(frame (voice ",
        1 => b"(frame (sid ",
        2 => b"(frame (quiet",
        _ => b"(frame (lost",
    }
}

// Whether a line is `opening`, two digits for each of `n` bytes, and `))`.
fn form(text: &[u8], opening: &[u8], n: usize) -> bool
    requires { (length opening.now ≤ 14) × (n ≤ 10) }
    ensures { result ≡ is_form opening.now n text.now }
{
    let end = opening.len() + 2 * n;
    if text.len() != end + 2 {
        return false;
    }
    text.starts_with(opening) && digits(&text[opening.len()..end]) && text[end..].starts_with(b"))")
}

// Writes the `n` bytes whose digits these begin with to the front of `payload`.
fn read_payload(digits: &[u8], n: usize, payload: &mut [u8])
    requires { (2 * n ≤ length digits.now) × (n ≤ length payload.old) }
    ensures { payload.new ≡ bytes n digits.now ++ drop n payload.old }
{
    for i in 0..n {
        payload[i] = 16 * text::value(digits[2 * i]) + text::value(digits[2 * i + 1]);
    }
}

// The operation Line: 11 where there are not ten bytes to write to, 9 where the line is not one of the four forms, both of which
// leave the bytes as they were; else the kind, and the payload is at the front of the bytes.
pub fn line(text: &[u8], payload: &mut [u8]) -> Result<u32, Refusal>
    ensures { Answer.answer (numbered result) payload.new ≡ line text.now payload.old }
{
    if payload.len() != 10 {
        return Err(Refusal::LineRoom);
    }
    for kind in 0..4 {
        let opening = opening(kind);
        let n = kind::payload_length(kind);
        if form(text, opening, n) {
            read_payload(&text[opening.len()..], n, payload);
            return Ok(kind);
        }
    }
    Err(Refusal::LineForm)
}

// Each of the private functions below writes at a place, and answers the place behind what it wrote.

fn put(part: &[u8], from: usize, out: &mut [u8]) -> usize
    requires { from + length part.now ≤ length out.old }
    ensures { Put part.now from out.old result out.new }
{
    from + octets::copy(part, &mut out[from..])
}

// The two digits of a byte.
fn put_byte(b: u8, from: usize, out: &mut [u8]) -> usize
    requires { from + 2 ≤ length out.old }
    ensures { Put (pair b) from out.old result out.new }
{
    out[from] = text::digit(b as u16 / 16);
    out[from + 1] = text::digit(b as u16);
    from + 2
}

// Two digits for each byte.
fn put_bytes(payload: &[u8], from: usize, out: &mut [u8]) -> usize
    requires { from + 2 * length payload.now ≤ length out.old }
    ensures { Put (hex payload.now) from out.old result out.new }
{
    let mut at = from;
    for b in payload {
        at = put_byte(*b, at, out);
    }
    at
}

// `opening`, the digits, and `))`, at the front.
fn put_form(opening: &[u8], payload: &[u8], out: &mut [u8]) -> usize
    requires { length opening.now + (2 * length payload.now + 2) ≤ length out.old }
    ensures { Put (form opening.now payload.now) 0 out.old result out.new }
{
    let a = put(opening, 0, out);
    let b = put_bytes(payload, a, out);
    put(b"))", b, out)
}

// The line of a frame: 5 for a kind above 3, 6 where the payload has not the length of its kind, 7 where `out` is not LONGEST bytes, all of which leave the bytes
// as they were; else its length, and the line is at the front of the bytes.
pub fn write(kind: u32, payload: &[u8], out: &mut [u8]) -> Result<usize, Refusal>
    ensures { writing.Answer.answer (numbered result) out.new ≡ writing.write kind payload.now out.old }
{
    if !kind::known(kind) {
        return Err(Refusal::Kind);
    }
    if payload.len() != kind::payload_length(kind) {
        return Err(Refusal::PayloadLength);
    }
    if out.len() != LONGEST {
        return Err(Refusal::OutputLength);
    }
    Ok(put_form(opening(kind), payload, out))
}
