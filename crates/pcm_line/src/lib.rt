// A line of printed samples (01, "The call text and the program"): `(pcm H)`, four hexadecimal digits for each sample, two's complement, high digit first. A decoded frame has 80;
// other lines may have fewer. `read` is the inverse of `write`.
#![tactic(auto)]

ghost use Rattle.std.specs.Prelude.{◌≡◌, ◌++◌, ◌+◌, ◌*◌, ◌≤◌, length, take, drop};
ghost use Rattle.laws.specs.Bytes.{same};
ghost use Rattle.text.specs.Text.{Put};
ghost use Rattle.print.specs.Print.{frame_room, over};
ghost use Rattle.pcm_line.specs.PcmLine.{sample, digits, pcm_text, pcm_line, Answer, read};

use print::{FRAME_ROOM, Writer};

// The sample of the four digits at a place.
pub fn sample(text: &[u8], at: usize) -> i16
    requires { at + 4 ≤ length text.now }
    ensures { result ≡ sample text.now at }
{
    let a = text::value(text[at]) as u32;
    let b = text::value(text[at + 1]) as u32;
    let c = text::value(text[at + 2]) as u32;
    let d = text::value(text[at + 3]) as u32;
    let n = 4096 * a + 256 * b + 16 * c + d;
    basic_op::extract_l(n as i32)
}

// Writes the `n` samples of the digits behind `(pcm ` to the front of `samples`.
pub fn digits(text: &[u8], n: usize, samples: &mut [i16])
    requires { (5 + 4 * n ≤ length text.now) × (n ≤ length samples.old) }
    ensures { samples.new ≡ digits n text.now ++ drop n samples.old }
{
    for i in 0..n {
        samples[i] = sample(text, 5 + 4 * i);
    }
}

// The line of samples at the front of `out`; answers its length.
fn put_line(samples: &[i16], out: &mut [u8; FRAME_ROOM]) -> usize
    requires { 7 + 4 * length samples.now ≤ length out.old }
    ensures { Put (pcm_line samples.now) 0 out.old result out.new }
{
    let mut w = Writer::new(out);
    w.put(b"(pcm ");
    w.words(samples);
    w.put(b")\n");
    w.written()
}

// The line of the first 80 samples, or of all where there are fewer, at the front of `out`; answers its length; the bytes behind it are as they were. The line of no samples is `(pcm )`.
pub fn write(samples: &[i16], out: &mut [u8; FRAME_ROOM]) -> usize
    ensures { (result ≤ frame_room) × ((result ≡ length (pcm_line (take 80 samples.now))) × (out.new ≡ over (pcm_line (take 80 samples.now)) out.old)) }
{
    if samples.len() < 80 {
        return put_line(samples, out);
    }
    put_line(&samples[0..80], out)
}

// Whether a text is what is printed of these samples, at most 80, without the line feed.
fn is_printed(text: &[u8], samples: &[i16]) -> bool
    ensures { result ≡ same text.now (pcm_text (take 80 samples.now)) }
{
    let mut again = [0u8; FRAME_ROOM];
    let n = write(samples, &mut again);
    text::same(text, &again[0..n - 1])
}

// How many samples a line has, without its line feed; they are at the front of `samples`, and those behind them are as they were. 0, and nothing written, where it is no line of 1 to 80
// samples: one of no samples, or a text that is not what is printed of the samples that its digits give.
pub fn read(text: &[u8], samples: &mut [i16; 80]) -> usize
    ensures { Answer.answer result samples.new ≡ read text.now samples.old }
{
    // The line of one sample has ten bytes.
    if text.len() < 10 {
        return 0;
    }
    let n = (text.len() - 6) / 4;
    if 80 < n {
        return 0;
    }
    let mut found = [0i16; 80];
    digits(text, n, &mut found);
    if !is_printed(text, &found[0..n]) {
        return 0;
    }
    digits(text, n, samples);
    n
}
