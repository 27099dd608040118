// Adaptive codebook (G.729): the adaptive-codebook vector (clause 3.7.1, equation (40)) at a pitch delay.
#![tactic(auto)]

ghost use Rattle.std.specs.Prelude.{◌≡◌, ◌+◌, ◌-◌, ◌≤◌, ◌<◌};
ghost use Rattle.laws.specs.Loops.{run};
ghost use Rattle.block.specs.Places.{exc_length};
ghost use Rattle.adaptive.specs.Adaptive.{phase, limited, lag, interpolate, adaptive_vector};
ghost use Rattle.adaptive.specs.Fast.{Continues};

use block::places;
use block::places::EXC_LENGTH;

mod fast;

// The phase of equation (40) for a fraction in thirds.
fn phase(frac: i16) -> usize
    ensures { result ≡ phase frac }
{
    if frac < 0 {
        return 1;
    }
    if frac > 0 {
        return 2;
    }
    0
}

// k, from 10 to 144.
fn limited(k: usize) -> usize
    ensures { result ≡ limited k }
{
    k.clamp(10, 144)
}

// k of T = t0 + frac / 3 = k - phase / 3, limited.
fn lag(t0: i16, frac: i16) -> usize
    ensures { result ≡ lag t0 frac }
{
    let k = pitch::nat(t0) as usize;
    if frac > 0 {
        return limited(k + 1);
    }
    limited(k)
}

// The sum of equation (40) around word x.
fn interpolate(b30: &[i16; 31], exc: &[i16; EXC_LENGTH], phase: usize, x: usize) -> i16
    requires { (phase ≤ 2) × ((9 ≤ x) × (x + 10 < exc_length)) }
    ensures { result ≡ interpolate b30.now phase x exc.now }
{
    let mut s = 0i32;
    for i in 0..10 {
        s = basic_op::l_mac(s, exc[x - i], b30[phase + 3 * i]);
        s = basic_op::l_mac(s, exc[x + 1 + i], b30[3 - phase + 3 * i]);
    }
    basic_op::round(s)
}

// The words of a subframe from `done` on, each from those around k before it.
fn rest(
    b30: &[i16; 31],
    exc: &mut [i16; EXC_LENGTH],
    from: usize,
    k: usize,
    phase: usize,
    done: usize,
)
    requires { (phase ≤ 2) × ((10 ≤ k) × ((k + 9 ≤ from) × ((from + 40 ≤ exc_length) × (done ≤ 40)))) }
    ensures { Continues (λ n e. interpolate b30.now phase (from + n - k) e) from done 40 exc.old exc.new }
{
    for n in done..40 {
        exc[from + n] = interpolate(b30, exc, phase, from + n - k);
    }
}

// Forty words from `from` on: the first ones without saturation, as far as that goes.
fn vector(b30: &[i16; 31], exc: &mut [i16; EXC_LENGTH], from: usize, k: usize, phase: usize)
    requires { (phase ≤ 2) × ((10 ≤ k) × ((k ≤ 144) × ((153 ≤ from) × (from + 40 ≤ exc_length)))) }
    ensures { exc.new ≡ run (λ n e. interpolate b30.now phase (from + n - k) e) from 40 exc.old }
{
    let offset = fast::offset(k);
    let c = fast::taps(b30, phase, offset);
    let done = fast::first_words(&c, exc, from, k, offset);
    rest(b30, exc, from, k, phase, done);
}

// Equation (40): the adaptive-codebook vector at delay t0 + frac / 3, written over its subframe of the excitation.
pub fn adaptive_vector(
    b30: &[i16; 31],
    exc: &mut [i16; EXC_LENGTH],
    second: bool,
    t0: i16,
    frac: i16,
)
    ensures { exc.new ≡ adaptive_vector b30.now second t0 frac exc.old }
{
    let from = places::exc_start(second);
    let k = lag(t0, frac);
    vector(b30, exc, from, k, phase(frac));
}
