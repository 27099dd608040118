// The gains of G.729: prediction (clause 3.9.1), decoding (clauses 3.9.2, 3.9.3 and 4.1.5), an erased frame's (clauses 4.4.2 and 4.4.3), and
// the factor of pitch sharpening (clause 3.8). Each contract is an equation with a definition of specs/Gain.antt; `t` is the table block.
#![tactic(auto)]

ghost use Rattle.std.specs.Prelude.{◌≡◌, ◌^◌, ◌<◌, ◌≤◌, ◌*ℤ◌};
ghost use Rattle.tables.specs.Layout.{gain_ga, gain_gb};
ghost use Rattle.basic_op.specs.Ops.{add, l_add};
ghost use Rattle.gain.specs.Gain.{sharpening, energy, mean_and_energy, prediction, log2_gain, predict, row_ga, row_gb, fixed_gain_of, gain_error_of, push, decode, conceal_pitch_gain, conceal_fixed_gain, error_sum, conceal_error, conceal};

use basic_op::{
    add, base2_log, base2_power, extract_h, extract_l, interpolate_q15, join_high_low, l_add,
    l_mac, l_mult, l_shl, l_shr, low16, mult, multiply_split_by_16, norm_l, sat32, split_high_low,
    sub,
};
use tables::{Scalar, scalars, text};

// The predicted fixed-codebook gain: a mantissa and its Q exponent.
#[derive(Clone, Copy)]
pub struct Predicted {
    pub mantissa: i16,
    pub exponent: i16,
}

// The gain decoder's memory: the last four prediction errors (Q10 dB), newest first, and the last pitch (Q14) and fixed gain (Q1).
#[derive(Clone, Copy)]
pub struct GainState {
    pub mem: [i16; 4],
    pub gp: i16,
    pub gc: i16,
}

// The factor of pitch sharpening, from the last pitch gain (equation (47)).
pub fn sharpening(t: &[i16], gp: i16) -> i16
    ensures { result ≡ sharpening t.now gp }
{
    let max = scalars(t, Scalar::PitchSharpeningMax);
    gp.min(max).max(text::PITCH_SHARPENING_MIN)
}

// ---- prediction

fn square(x: i16) -> i64
    ensures { result ≡ x *ℤ x }
{
    x as i64 * x as i64
}

// The sum of the codevector's squares (equation (66)): no square is negative, so it is enough to saturate at the end.
fn energy(code: [i16; 40]) -> i32
    ensures { result ≡ energy code }
{
    let mut sum = 0i64;
    for x in code {
        sum += square(x);
    }
    sat32(sum * 2)
}

// The mean energy less the codevector's, in dB.
fn mean_and_energy(t: &[i16], code: [i16; 40]) -> i32
    ensures { result ≡ mean_and_energy t.now code }
{
    let e = base2_log(t, energy(code));
    let scale = scalars(t, Scalar::GainPredictionLogScale);
    let mantissa = scalars(t, Scalar::GainPredictionMeanEnergyMantissa);
    let multiplier = scalars(t, Scalar::GainPredictionMeanEnergyMultiplier);
    let l = multiply_split_by_16(e.integer, e.fraction, scale);
    l_shl(l_mac(l, mantissa, multiplier), 10)
}

// l and the moving average of the last errors (equation (69)).
fn prediction(l: i32, mem: [i16; 4]) -> i32
    ensures { result ≡ prediction l mem }
{
    let b = tables::formula::gain_prediction_coefficients();
    let mut sum = l;
    for k in 0..4 {
        sum = l_mac(sum, b[k], mem[k]);
    }
    sum
}

// The base-2 logarithm of the predicted gain.
fn log2_gain(t: &[i16], code: [i16; 40], mem: [i16; 4]) -> i32
    ensures { result ≡ log2_gain t.now code mem }
{
    let g = extract_h(prediction(mean_and_energy(t, code), mem));
    let factor = scalars(t, Scalar::GainPredictionDbToLog2);
    l_shr(l_mult(g, factor), 8)
}

// The predicted fixed-codebook gain (equation (71)), from the codevector and the last four errors.
pub fn predict(t: &[i16], code: [i16; 40], mem: [i16; 4]) -> Predicted
    ensures { result ≡ predict t.now code mem }
{
    let x = split_high_low(log2_gain(t, code, mem));
    let power = base2_power(14, x.lower);
    Predicted {
        mantissa: extract_l(power),
        exponent: sub(14, x.upper),
    }
}

// ---- decoding

// The row of GA for the received index, by its 3 low bits.
fn row_ga(t: &[i16], ga: u16) -> u16
    ensures { result ≡ row_ga t.now ga }
{
    low16(tables::map_ga(t, ga % 8)) % 8
}

// The row of GB for the received index, by its 4 low bits.
fn row_gb(t: &[i16], gb: u16) -> u16
    ensures { result ≡ row_gb t.now gb }
{
    low16(tables::map_gb(t, gb % 16)) % 16
}

// The pitch gain of two rows (equation (73)).
fn pitch_gain(t: &[i16], a: u16, b: u16) -> i16
    ensures { result ≡ add (gain_ga t.now a 0) (gain_gb t.now b 0) }
{
    add(tables::gain_ga(t, a, 0), tables::gain_gb(t, b, 0))
}

// The correction factor of the fixed gain of two rows (equation (74)), in 32 bits.
fn gamma(t: &[i16], a: u16, b: u16) -> i32
    ensures { result ≡ l_add (gain_ga t.now a 1) (gain_gb t.now b 1) }
{
    let first = tables::gain_ga(t, a, 1);
    let second = tables::gain_gb(t, b, 1);
    l_add(first as i32, second as i32)
}

// The fixed gain, from the predicted one and its correction factor (equation (74)).
fn fixed_gain(p: Predicted, g: i32) -> i16
    ensures { result ≡ fixed_gain_of p g }
{
    let factor = extract_l(l_shr(g, 1));
    let shift = sub(p.exponent, 4);
    extract_h(l_shr(l_mult(p.mantissa, factor), shift))
}

// The prediction error of the received gain, by its correction factor (equation (72)).
fn gain_error(t: &[i16], g: i32) -> i16
    ensures { result ≡ gain_error_of t.now g }
{
    let e = base2_log(t, g);
    let l = join_high_low(sub(e.integer, 13), e.fraction);
    let factor = scalars(t, Scalar::GainUpdateLog2ToDb);
    mult(extract_h(l_shl(l, 13)), factor)
}

// The memory with one error more, newest first.
fn push(mem: [i16; 4], u: i16) -> [i16; 4]
    ensures { result ≡ push mem u }
{
    [u, mem[0], mem[1], mem[2]]
}

// The state after a received subframe, whose gains it holds (clause 4.1.5).
pub fn decode(t: &[i16], s: GainState, ga: u16, gb: u16, code: [i16; 40]) -> GainState
    ensures { result ≡ decode t.now ga gb code s }
{
    let mem = s.mem;
    let p = predict(t, code, mem);
    let a = row_ga(t, ga);
    let b = row_gb(t, gb);
    let g = gamma(t, a, b);
    let next = push(mem, gain_error(t, g));
    GainState {
        mem: next,
        gp: pitch_gain(t, a, b),
        gc: fixed_gain(p, g),
    }
}

// ---- concealment

// The pitch gain of an erased subframe (equation (94)).
fn conceal_pitch_gain(t: &[i16], gp: i16) -> i16
    ensures { result ≡ conceal_pitch_gain t.now gp }
{
    let limit = scalars(t, Scalar::ErasurePitchGainLimit);
    mult(gp, text::ERASURE_PITCH_GAIN_ATTENUATION).min(limit)
}

// The fixed gain of an erased subframe (equation (93)).
fn conceal_fixed_gain(t: &[i16], gc: i16) -> i16
    ensures { result ≡ conceal_fixed_gain t.now gc }
{
    let factor = scalars(t, Scalar::ErasureFixedGainAttenuation);
    mult(gc, factor)
}

// The sum of the last errors.
fn error_sum(mem: [i16; 4]) -> i32
    ensures { result ≡ error_sum mem }
{
    let mut sum = 0i32;
    for u in mem {
        sum = l_add(sum, u as i32);
    }
    sum
}

// The error that an erased subframe leaves in the memory (equation (95)).
fn conceal_error(mem: [i16; 4]) -> i16
    ensures { result ≡ conceal_error mem }
{
    let mean = extract_l(l_shr(error_sum(mem), 2));
    sub(mean, text::ERASURE_GAIN_MEMORY_OFFSET).max(text::ERASURE_GAIN_MEMORY_FLOOR)
}

// The state after an erased subframe, whose gains it holds (clauses 4.4.2 and 4.4.3).
pub fn conceal(t: &[i16], s: GainState) -> GainState
    ensures { result ≡ conceal t.now s }
{
    let mem = s.mem;
    let next = push(mem, conceal_error(mem));
    GainState {
        mem: next,
        gp: conceal_pitch_gain(t, s.gp),
        gc: conceal_fixed_gain(t, s.gc),
    }
}
