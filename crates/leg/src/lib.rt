// One line of a G.711 leg's text (change request 8; 01, "The call text and the program"): bytes of a law, 1 A or 2 mu, as a line of their samples, and such a line back to bytes.
#![tactic(auto)]

ghost use Rattle.std.specs.Prelude.{◌≡◌, ◌≤◌, length, take};
ghost use Rattle.print.specs.Print.{frame_room, over};
ghost use Rattle.refusal.specs.Refusal.{code};
ghost use Rattle.leg.specs.Leg.{leg_line, Answer, bytes_of, taken};

use print::FRAME_ROOM;
use refusal::Refusal;

// The law is a number here, as g711's calls have it: its answers for other numbers are part of what is promised.

// `line` of at most 80 bytes.
fn print_line(law: u32, bytes: &[u8], out: &mut [u8; FRAME_ROOM]) -> usize
    requires { length bytes.now ≤ 80 }
    ensures { (result ≤ frame_room) × ((result ≡ length (leg_line law bytes.now)) × (out.new ≡ over (leg_line law bytes.now) out.old)) }
{
    let n = bytes.len();
    if n == 0 {
        return 0;
    }
    let mut samples = [0i16; 80];
    let Ok(()) = g711::read(law, bytes, &mut samples[0..n]) else {
        return 0;
    };
    pcm_line::write(&samples[0..n], out)
}

// The line of the samples of the first 80 bytes, or of all where there are fewer, at the front of `out`; answers its length; the bytes behind it are as they were. 0, and nothing
// written, for no bytes or another law.
pub fn line(law: u32, bytes: &[u8], out: &mut [u8; FRAME_ROOM]) -> usize
    ensures { (result ≤ frame_room) × ((result ≡ length (leg_line law (take 80 bytes.now))) × (out.new ≡ over (leg_line law (take 80 bytes.now)) out.old)) }
{
    if bytes.len() < 80 {
        return print_line(law, bytes, out);
    }
    print_line(law, &bytes[0..80], out)
}

// `bytes_of` on a slice.
fn step(law: u32, text: &[u8], bytes: &mut [u8]) -> Result<usize, Refusal>
    requires { 80 ≤ length bytes.old }
    ensures { (Answer.answer (code result) (taken result) bytes.new ≡ bytes_of law text.now bytes.old) × (taken result ≤ 80) }
{
    let mut samples = [0i16; 80];
    let n = pcm_line::read(text, &mut samples);
    // Where there are no samples, the law alone is tested.
    match g711::write(law, &samples[0..n], &mut bytes[0..n]) {
        Err(refused) => Err(refused),
        Ok(()) => {
            if n == 0 {
                Err(Refusal::LineForm)
            } else {
                Ok(n)
            }
        }
    }
}

// The bytes of a line, without its line feed, at the front of `bytes`, and how many: the bytes behind them are as they were. 16: another law. 9: no line of 1 to 80 samples. 17: a sample
// that is no table value. Each with nothing written.
pub fn bytes_of(law: u32, text: &[u8], bytes: &mut [u8; 80]) -> Result<usize, Refusal>
    ensures { (Answer.answer (code result) (taken result) bytes.new ≡ bytes_of law text.now bytes.old) × (taken result ≤ 80) }
{
    step(law, text, bytes)
}
