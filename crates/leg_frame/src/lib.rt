// The next frame of a leg from its bytes (change request 10): bytes of G.711, words of 16 bits, low byte first, or a line of printed samples (01, "The call text and the program"). Behind
// the last samples of a leg its frame is silence, 0.
#![tactic(auto)]

ghost use Rattle.std.specs.Prelude.{◌≡◌, true, ◌++◌, map, ◌≤◌, min, length, take, drop};
ghost use Rattle.laws.specs.Bytes.{same};
ghost use Rattle.g711.specs.G711.{value};
ghost use Rattle.g711.specs.Law.{number};
ghost use Rattle.leg_frame.specs.LegFrame.{form, law, taken, samples, is_figure, leading, closes, of_samples, of_frames, is_total, Answer, line, what_of, samples_of};

use g711::Law;
use print::FORM_ROOM;
use text::starts;

// The forms of a leg: none that is known, the two laws as crate g711 numbers them, words, printed samples; and a WAV file, whose header tells which of the first ones it has.
pub const NONE: u32 = 0;

pub const A: u32 = 1;

pub const MU: u32 = 2;

pub const LINEAR: u32 = 3;

pub const PRINTED: u32 = 4;

pub const WAV: u32 = 5;

// What a line of a printed leg is: so many samples, the total of those before it, or neither; the total of another number; or that the call was refused.
#[derive(Clone, Copy, Debug, PartialEq, Eq)]
pub enum Found {
    Samples(usize),
    Total,
    NoLine,
    OtherTotal,
    Refused,
}

impl Found {
    // How many samples it has.
    pub fn samples(self) -> usize
        ensures { result ≡ samples_of self }
    {
        match self {
            Found::Samples(n) => n,
            _ => 0,
        }
    }
}

// The form of a leg that begins with these bytes.
pub fn form(bytes: &[u8]) -> u32
    ensures { result ≡ form bytes.now }
{
    if starts(bytes, b"RIFF") {
        return WAV;
    }
    if starts(bytes, b"(pcm ") {
        return PRINTED;
    }
    if starts(bytes, b"(total ") {
        return PRINTED;
    }
    if starts(bytes, b"(refused ") {
        return PRINTED;
    }
    NONE
}

// ---- bytes and words

// The law of a form of bytes.
fn law(form: u32) -> Law
    ensures { number result ≡ law form }
{
    if form == A {
        return Law::A;
    }
    Law::Mu
}

// The samples of the first 80 bytes of a law, or of all where there are fewer, at the front of a frame; answers how many.
fn expand(law: Law, bytes: &[u8], frame: &mut [i16]) -> usize
    requires { length frame.old ≡ 80 }
    ensures { (result ≡ min (length bytes.now) 80) × (frame.new ≡ map (value (number law)) (take 80 bytes.now) ++ drop (min (length bytes.now) 80) frame.old) }
{
    let n = bytes.len().min(80);
    // A law and as many samples as bytes: there is nothing to refuse.
    let _ = g711::read(u32::from(law), &bytes[0..n], &mut frame[0..n]);
    n
}

// The samples of the first 80 words, or of all where there are fewer, at the front of a frame; answers how many bytes these have.
fn read_words(bytes: &[u8], frame: &mut [i16; 80]) -> usize
    ensures { (result ≡ taken 3 bytes.now) × (frame.new ≡ samples 3 bytes.now) }
{
    *frame = [0; 80];
    words::from_bytes(bytes, frame);
    2 * (bytes.len() / 2).min(80)
}

// The next frame of a leg of bytes or words: the samples at their front, at most 80, and silence behind them where there are fewer. Answers how many bytes were taken, 0 where there is no sample.
pub fn samples(form: u32, bytes: &[u8], frame: &mut [i16; 80]) -> usize
    ensures value { (result ≡ taken form bytes.now) × (frame.new ≡ samples form bytes.now) }
    ensures upper_bound { result ≤ length bytes.now }
{
    if form == LINEAR {
        return read_words(bytes, frame);
    }
    *frame = [0i16; 80];
    expand(law(form), bytes, frame)
}

// ---- printed samples

// Whether a byte is a decimal digit.
fn is_figure(b: u8) -> bool
    ensures { result ≡ is_figure b }
{
    if b < 48 {
        return false;
    }
    b < 58
}

// How many decimal digits a text begins with.
fn leading(text: &[u8]) -> usize
    ensures { (result ≡ leading text.now) × (result ≤ length text.now) }
{
    for (i, b) in text.iter().enumerate() {
        if !is_figure(*b) {
            return i;
        }
    }
    text.len()
}

// Whether a text is a number and what closes a total behind it.
fn closes(text: &[u8]) -> bool
    ensures { result ≡ closes text.now }
{
    let n = leading(text);
    if n == 0 {
        return false;
    }
    text::same(&text[n..], b"))")
}

// Whether a text is `(total (samples N))`.
fn of_samples(n: u32, text: &[u8]) -> bool
    ensures { result ≡ same text.now (of_samples n) }
{
    let mut form = [0u8; FORM_ROOM];
    let a = print::figure(b"(total (samples ", n, 0, &mut form);
    let b = print::put(b"))", a, &mut form);
    text::same(text, &form[0..b])
}

// Whether a text is `(total (frames N) (lost M))`, whatever M is, of whole frames of so many samples.
fn of_frames(n: u32, text: &[u8]) -> bool
    ensures { result ≡ of_frames n text.now }
{
    if n % 80 != 0 {
        return false;
    }
    let mut form = [0u8; FORM_ROOM];
    let a = print::figure(b"(total (frames ", n / 80, 0, &mut form);
    let b = print::put(b") (lost ", a, &mut form);
    if !starts(text, &form[0..b]) {
        return false;
    }
    closes(&text[b..])
}

// Whether a text is the total of so many samples, as `g711_leg` or as `decode` prints it.
fn is_total(n: u32, text: &[u8]) -> bool
    ensures { result ≡ is_total n text.now }
{
    if of_samples(n, text) {
        return true;
    }
    of_frames(n, text)
}

// What a line of a printed leg is, without its line feed and behind so many samples, and its frame: silence where it has no samples.
pub fn line(before: u32, text: &[u8], frame: &mut [i16; 80]) -> Found
    ensures { (Answer.answer (what_of result) (samples_of result) frame.new ≡ line before text.now) × (samples_of result ≤ 80) }
{
    *frame = [0; 80];
    if starts(text, b"(total ") {
        if is_total(before, text) {
            return Found::Total;
        }
        return Found::OtherTotal;
    }
    if starts(text, b"(refused ") {
        return Found::Refused;
    }
    let n = pcm_line::read(text, frame);
    if n == 0 {
        return Found::NoLine;
    }
    Found::Samples(n)
}
