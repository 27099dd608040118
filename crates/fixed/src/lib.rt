// The fixed codebook of G.729: the pulses of clauses 3.8 and 4.1.4, pitch sharpening, and the random indices of an erased frame
// (clause 4.4.4). Each contract is an equation with a definition of specs/Fixed.antt.
#![tactic(auto)]

ghost use Rattle.std.specs.Prelude.{◌≡◌, ◌+◌, ◌-◌, ◌≤◌, ◌<◌};
ghost use Rattle.laws.specs.Lists.{at};
ghost use Rattle.laws.specs.Loops.{run};
ghost use Rattle.basic_op.specs.Ops.{add, mult};
ghost use Rattle.fixed.specs.Fixed.{random, random_index, position, pulse, codevector, sharpen};

use basic_op::{add, extract_l, low16, mult, shl};

// What an erased subframe draws: the codebook index, the signs, and the seed after both.
#[derive(Clone, Copy)]
pub struct Drawn {
    pub index: u16,
    pub sign: u16,
    pub seed: i16,
}

// The next random number, which is the next seed too (equation (96)).
pub fn random(seed: i16) -> i16
    ensures { result ≡ random seed }
{
    extract_l(31821 * seed as i32 + 13849)
}

// The index and the signs of an erased subframe, in this order (clause 4.4.4).
pub fn random_index(seed: i16) -> Drawn
    ensures { result ≡ random_index seed }
{
    let first = random(seed);
    let second = random(first);
    Drawn {
        index: low16(first) % 8192,
        sign: low16(second) % 16,
        seed: second,
    }
}

// The position of pulse k (equation (62), Table 7): a case for each pulse, as the table has a row for each.
fn position(index: u16, k: u32) -> usize
    ensures { result ≡ position index k }
{
    let i = index as usize;
    match k {
        0 => 5 * (i % 8),
        1 => 5 * (i / 8 % 8) + 1,
        2 => 5 * (i / 64 % 8) + 2,
        _ => 5 * (i / 1024 % 8) + 3 + i / 512 % 2,
    }
}

// The amplitude of pulse k (equations (45) and (61)).
fn pulse(positive: i16, sign: u16, k: u32) -> i16
    requires { k < 16 }
    ensures { result ≡ pulse positive sign k }
{
    if (sign >> k) % 2 == 1 {
        positive
    } else {
        -8192
    }
}

// The codevector, from the amplitude of a positive pulse (equation (45)).
pub fn codevector(positive: i16, index: u16, sign: u16) -> [i16; 40]
    ensures { result ≡ codevector positive index sign }
{
    let mut code = [0i16; 40];
    for k in 0..4 {
        code[position(index, k)] = pulse(positive, sign, k);
    }
    code
}

// The words from place t0 on, each with b times the word t0 before it.
fn add_delayed(code: [i16; 40], t0: usize, b: i16) -> [i16; 40]
    requires { t0 ≤ 40 }
    ensures { result ≡ run (λ n c. add (at c (t0 + n)) (mult (at c n) b)) t0 (40 - t0) code }
{
    let mut out = code;
    for n in 0..40 - t0 {
        out[t0 + n] = add(out[t0 + n], mult(out[n], b));
    }
    out
}

// The codevector sharpened by the delay t0 and the factor beta (equation (48)).
pub fn sharpen(code: [i16; 40], t0: i16, beta: i16) -> [i16; 40]
    ensures { result ≡ sharpen code t0 beta }
{
    if t0 < 1 {
        return code;
    }
    let lag = t0 as usize;
    if lag > 39 {
        return code;
    }
    add_delayed(code, lag, shl(beta, 1))
}
