// Excitation (G.729, equation (75)) and reconstructed speech (clause 4.1.6), with the second synthesis after saturation. The caller lends the frame's
// 234 words of excitation (154 of the past, then 80) and its 90 words of speech (the last ten samples before it, then 80).
#![tactic(auto)]

ghost use Rattle.std.specs.Prelude.{◌≡◌, ◌≤◌, nat_abs};
ghost use Rattle.synth.specs.Synth.{excite, excitation, divide_by_4, reconstruct_exc, reconstruct_speech};

use block::places;
use block::places::{EXC_LENGTH, SPEECH_LENGTH};

// `excite` where neither gain is -32768: no product saturates, and the saturating steps behind them end like one clamp.
fn excite_whole(gp: i16, gc: i16, v: i16, c: i16) -> i16
    requires gp_bound { nat_abs gp ≤ 32767 }
    requires gc_bound { nat_abs gc ≤ 32767 }
    ensures { result ≡ excite gp gc v c }
{
    let sum = v as i32 * gp as i32 + c as i32 * gc as i32;
    basic_op::sat16(basic_op::sar32(sum + 8192, 14))
}

// One word of the excitation, from gp (Q14), gc (Q1), v (Q0) and c (Q13). The test is of the gains alone, so that the compiler takes it out of
// the loop below.
fn excite(gp: i16, gc: i16, v: i16, c: i16) -> i16
    ensures { result ≡ excite gp gc v c }
{
    if (gp > -32768) & (gc > -32768) {
        return excite_whole(gp, gc, v, c);
    }
    let l = basic_op::l_mac(basic_op::l_mult(v, gp), c, gc);
    basic_op::round(basic_op::l_shl(l, 1))
}

// Equation (75): the subframe's adaptive vector, which stands in `exc`, becomes its excitation.
pub fn excitation(exc: &mut [i16; EXC_LENGTH], second: bool, code: &[i16; 40], gp: i16, gc: i16)
    ensures { exc.new ≡ excitation second code.now gp gc exc.old }
{
    let start = places::exc_start(second);
    for n in 0..40 {
        exc[start + n] = excite(gp, gc, exc[start + n], code[n]);
    }
}

// The whole excitation, divided by 4.
pub fn divide_by_4(exc: &mut [i16])
    ensures { exc.new ≡ divide_by_4 exc.old }
{
    for x in exc.iter_mut() {
        *x = basic_op::sar16(*x, 2);
    }
}

// Clause 4.1.6: the subframe's samples; where their synthesis saturates, it runs once more on the excitation divided by 4.
pub fn reconstruct(
    a: &[i16; 11],
    exc: &mut [i16; EXC_LENGTH],
    second: bool,
    speech: &mut [i16; SPEECH_LENGTH],
)
    ensures exc_after { exc.new ≡ reconstruct_exc second a.now exc.old speech.old }
    ensures speech_after { speech.new ≡ reconstruct_speech second a.now exc.old speech.old }
{
    let saturated = synth_filter::synthesize(a, exc, second, speech);
    if saturated {
        divide_by_4(exc);
        synth_filter::synthesize(a, exc, second, speech);
    }
}
