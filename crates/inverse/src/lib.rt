// The inverse of synthesis (G.729 equation (77) solved for x(n)): the excitation read off samples, and the past excitation that two frames of it tell.
#![tactic(auto)]

ghost use Rattle.std.specs.Prelude.{◌≡◌, map, ◌≤◌, ◌<◌, length};
ghost use Rattle.std.specs.Int.Signed.{mag};
ghost use Rattle.block.specs.Places.{speech_length};
ghost use Rattle.inverse.specs.Inverse.{past_sum, inverse, inside, bounded, frame_words, shrunk_before, window_words, word};

use block::places::SPEECH_LENGTH;

// The words of excitation that two frames tell, and those of them that a decoder keeps.
pub const WINDOW_LENGTH: usize = 160;

// ---- which samples tell their excitation

// Whether the sizes of the coefficients are in bound, so that a sample inside its range was not limited on the way.
pub fn bounded(a: &[i16; 11]) -> bool
    ensures { result ≡ bounded a.now }
{
    synth_filter::size_sum(a) <= 61439
}

// Whether no sample of a frame is at an end of its range. All are tested, so that the compiler tests them side by side.
pub fn inside(y: &[i16; 80]) -> bool
    ensures { result ≡ inside y.now 80 }
{
    let mut ok = true;
    for s in y {
        if (*s < -32767) | (32766 < *s) {
            ok = false;
        }
    }
    ok
}

// ---- the words

// 2048 - a1 y(n - 1) - .. - a10 y(n - 10), in 64 bits, since other samples than a decoder's may make it large.
fn past_sum(a: &[i16; 11], y: &[i16; SPEECH_LENGTH], n: usize) -> i64
    requires n_le_speech_length { n ≤ speech_length }
    requires le_n { 10 ≤ n }
    ensures value { result ≡ past_sum a.now y.now n }
    ensures result_bound { mag result < 34359738368 }
{
    let mut l: i64 = 2048;
    for i in 0..10 {
        l = l - synth_filter::product(a[i + 1], y[n - (i + 1)]);
    }
    l
}

// x(n), kept in 16 bits.
fn inverse(a: &[i16; 11], y: &[i16; SPEECH_LENGTH], n: usize) -> i16
    requires n_lt_speech_length { n < speech_length }
    requires le_n { 10 ≤ n }
    ensures { result ≡ word (inverse a.now y.now n) }
{
    let past = basic_op::sar64(past_sum(a, y, n), 12) as i32;
    basic_op::sat16(y[n] as i32 - past)
}

// The 80 words of a frame's excitation, from its samples behind the ten before it; a and b are the coefficients of its subframes.
pub fn frame_words(a: &[i16; 11], b: &[i16; 11], y: &[i16; SPEECH_LENGTH]) -> [i16; 80]
    ensures { result ≡ map word (frame_words a.now b.now y.now) }
{
    let mut w = [0i16; 80];
    for k in 0..80 {
        w[k] = if k < 40 {
            inverse(a, y, 10 + k)
        } else {
            inverse(b, y, 10 + k)
        };
    }
    w
}

// ---- two frames

// Where the subframe at place n was shrunk, all words before its own are divided by 4.
fn shrunk_before(b: bool, n: usize, w: &mut [i16])
    requires { n ≤ length w.old }
    ensures { w.new ≡ shrunk_before b n w.old }
{
    if b {
        synth::divide_by_4(&mut w[..n]);
    }
}

// The past excitation behind two frames, from the words that they tell, where their second, third and fourth subframe were shrunk, or not.
pub fn window_words(second: bool, third: bool, fourth: bool, w: &[i16; WINDOW_LENGTH]) -> [i16; 154]
    ensures { result ≡ window_words second third fourth w.now }
{
    let mut all = [0i16; WINDOW_LENGTH];
    block::words(w, 0, &mut all);
    shrunk_before(second, 40, &mut all);
    shrunk_before(third, 80, &mut all);
    shrunk_before(fourth, 120, &mut all);
    let mut kept = [0i16; 154];
    block::words(&all, 6, &mut kept);
    kept
}
