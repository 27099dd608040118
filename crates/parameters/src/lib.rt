// A frame's parameters (G.729 clauses 4.1 and 4.4; lib.rs of the Rust): from the fields of a frame that was received, or by concealment. They never read the signal.
#![tactic(auto)]

ghost use Rattle.std.specs.Prelude.{◌≡◌};
ghost use Rattle.parameters.specs.Parameters.{past_rows, to_spectrum, voice_spectrum, concealed_spectrum, sharpened, coded, voice_codes, draw, concealed_codes, subframe, next_params, to_decoded, voice, conceal, parameters};

use bitstream::SpeechParams;
use fixed::Drawn;
use gain::GainState;
use pitch::{Delay, Delays, PitchState};
use plc::Decision;
use state::Params;

// What the signal of a subframe is made from.
#[derive(Clone, Copy)]
pub struct Subframe {
    pub delay: Delay,
    // Pitch gain (Q14) and fixed gain (Q1).
    pub gp: i16,
    pub gc: i16,
    // The sharpened codevector, Q13.
    pub code: [i16; 40],
    // The coefficients of synthesis, Q12.
    pub a: [i16; 11],
}

// A frame's two subframes, and the parameters that it leaves. Its LSF are `params.omega`.
#[derive(Clone, Copy)]
pub struct Decoded {
    pub first: Subframe,
    pub second: Subframe,
    pub params: Params,
}

// A frame's LSF row, frequencies and LSP, and the coefficients of synthesis of its subframes.
#[derive(Clone, Copy)]
struct Spectrum {
    row: [i16; 10],
    omega: [i16; 10],
    lsp: [i16; 10],
    a1: [i16; 11],
    a2: [i16; 11],
}

// A subframe's sharpened codevector, the gains after it, and the factor that sharpens the next.
#[derive(Clone, Copy)]
struct Code {
    vector: [i16; 40],
    gain: GainState,
    beta: i16,
}

#[derive(Clone, Copy)]
struct Codes {
    first: Code,
    second: Code,
}

// What the two subframes of an erased frame draw.
#[derive(Clone, Copy)]
struct Draws {
    first: Drawn,
    second: Drawn,
}

// The four past rows, newest first.
fn past_rows(p: Params) -> [[i16; 10]; 4]
    ensures { result ≡ past_rows p }
{
    let r0 = p.r0;
    let r1 = p.r1;
    let r2 = p.r2;
    let r3 = p.r3;
    [r0, r1, r2, r3]
}

// The coefficients of both subframes from a frame's frequencies and the LSP of the frame before (clauses 3.2.5 and 3.2.6).
fn to_spectrum(t: &[i16], row: [i16; 10], omega: [i16; 10], previous: [i16; 10]) -> Spectrum
    ensures { result ≡ to_spectrum t.now row omega previous }
{
    let lsp = lsp::lsf_to_lsp(t, omega);
    let a1 = lpc::lsp_to_lp(lsp::interpolate(previous, lsp));
    let a2 = lpc::lsp_to_lp(lsp);
    Spectrum {
        row,
        omega,
        lsp,
        a1,
        a2,
    }
}

// Clause 4.1.1.
fn voice_spectrum(t: &[i16], f: SpeechParams, p: Params) -> Spectrum
    ensures { result ≡ voice_spectrum t.now f p }
{
    let row = lsp::new_row(t, f.l1, f.l2, f.l3);
    let omega = lsp::decode_lsf(t, f.l0, row, past_rows(p));
    let previous = p.lsp;
    to_spectrum(t, row, omega, previous)
}

// Clause 4.4.1: the last frequencies again, and the row that gives them.
fn concealed_spectrum(t: &[i16], p: Params) -> Spectrum
    ensures { result ≡ concealed_spectrum t.now p }
{
    let omega = p.omega;
    let row = lsp::erased_row(t, p.predictor, omega, past_rows(p));
    let previous = p.lsp;
    to_spectrum(t, row, omega, previous)
}

// The codevector, sharpened with the subframe's delay and the factor of the subframe before (clauses 4.1.4 and 4.4.4).
fn sharpened(t: &[i16], beta: i16, index: u16, sign: u16, delay: Delay) -> [i16; 40]
    ensures { result ≡ sharpened t.now beta index sign delay }
{
    let positive = tables::scalars(t, tables::Scalar::FixedCodebookPulsePositive);
    fixed::sharpen(
        fixed::codevector(positive, index, sign),
        delay.integer,
        beta,
    )
}

// A subframe's codevector and gains, with the factor that sharpens the next (equation (47)).
fn coded(t: &[i16], vector: [i16; 40], gain: GainState) -> Code
    ensures { result ≡ coded t.now vector gain }
{
    let beta = gain::sharpening(t, gain.gp);
    Code { vector, gain, beta }
}

// Clauses 4.1.4 and 4.1.5.
fn voice_codes(t: &[i16], f: SpeechParams, d: Delays, gain: GainState, beta: i16) -> Codes
    ensures { result ≡ voice_codes t.now f d gain beta }
{
    let delay1 = d.first;
    let delay2 = d.second;
    let code1 = sharpened(t, beta, f.c1, f.s1, delay1);
    let first = coded(t, code1, gain::decode(t, gain, f.ga1, f.gb1, code1));
    let gain1 = first.gain;
    let code2 = sharpened(t, first.beta, f.c2, f.s2, delay2);
    let second = coded(t, code2, gain::decode(t, gain1, f.ga2, f.gb2, code2));
    Codes { first, second }
}

// Index and signs of both subframes of an erased frame: four draws (clause 4.4.4).
fn draw(seed: i16) -> Draws
    ensures { result ≡ draw seed }
{
    let first = fixed::random_index(seed);
    let second = fixed::random_index(first.seed);
    Draws { first, second }
}

// Clauses 4.4.2 to 4.4.4.
fn concealed_codes(t: &[i16], w: Draws, d: Delays, gain: GainState, beta: i16) -> Codes
    ensures { result ≡ concealed_codes t.now w d gain beta }
{
    let delay1 = d.first;
    let delay2 = d.second;
    let draw1 = w.first;
    let draw2 = w.second;
    let code1 = sharpened(t, beta, draw1.index, draw1.sign, delay1);
    let first = coded(t, code1, gain::conceal(t, gain));
    let gain1 = first.gain;
    let code2 = sharpened(t, first.beta, draw2.index, draw2.sign, delay2);
    let second = coded(t, code2, gain::conceal(t, gain1));
    Codes { first, second }
}

fn to_subframe(delay: Delay, gain: GainState, code: [i16; 40], a: [i16; 11]) -> Subframe
    ensures { result ≡ subframe delay gain code a }
{
    Subframe {
        delay,
        gp: gain.gp,
        gc: gain.gc,
        code,
        a,
    }
}

// The parameters that a frame leaves.
fn next_params(
    p: Params,
    predictor: i16,
    seed: i16,
    s: Spectrum,
    pitch: PitchState,
    c: Code,
) -> Params
    ensures { result ≡ next_params p predictor seed s pitch c }
{
    let row = s.row;
    let rows = lsp::remember_output(past_rows(p), row);
    let r0 = rows[0];
    let r1 = rows[1];
    let r2 = rows[2];
    let r3 = rows[3];
    let omega = s.omega;
    let lsp = s.lsp;
    let gain = c.gain;
    Params {
        r0,
        r1,
        r2,
        r3,
        predictor,
        omega,
        lsp,
        pitch,
        seed,
        gain,
        beta: c.beta,
    }
}

// A frame from its parts.
fn to_decoded(p: Params, predictor: i16, seed: i16, s: Spectrum, d: Delays, c: Codes) -> Decoded
    ensures { result ≡ to_decoded p predictor seed s d c }
{
    let delay1 = d.first;
    let delay2 = d.second;
    let pitch = d.state;
    let c1 = c.first;
    let c2 = c.second;
    let gain1 = c1.gain;
    let gain2 = c2.gain;
    let code1 = c1.vector;
    let code2 = c2.vector;
    let a1 = s.a1;
    let a2 = s.a2;
    let first = to_subframe(delay1, gain1, code1, a1);
    let second = to_subframe(delay2, gain2, code2, a2);
    let params = next_params(p, predictor, seed, s, pitch, c2);
    Decoded {
        first,
        second,
        params,
    }
}

// Clause 4.1: the parameters of a frame that was received.
pub fn voice(t: &[i16], f: SpeechParams, p: Params) -> Decoded
    ensures { result ≡ voice t.now f p }
{
    let pitch = p.pitch;
    let gain = p.gain;
    let s = voice_spectrum(t, f, p);
    let d = pitch::voice_delays(pitch, f.p1, f.p0, f.p2);
    let c = voice_codes(t, f, d, gain, p.beta);
    to_decoded(p, (f.l0 % 2) as i16, p.seed, s, d, c)
}

// Clause 4.4: the parameters of a frame that was not received.
pub fn conceal(t: &[i16], p: Params) -> Decoded
    ensures { result ≡ conceal t.now p }
{
    let w = draw(p.seed);
    let pitch = p.pitch;
    let gain = p.gain;
    let s = concealed_spectrum(t, p);
    let d = pitch::concealed_delays(pitch);
    let c = concealed_codes(t, w, d, gain, p.beta);
    let last = w.second;
    to_decoded(p, p.predictor, last.seed, s, d, c)
}

// The parameters of a frame, by what it is decoded as.
pub fn parameters(t: &[i16], d: Decision, p: Params) -> Decoded
    ensures { result ≡ parameters t.now d p }
{
    match d {
        Decision::Voice(f) => voice(t, f, p),
        Decision::Concealment => conceal(t, p),
    }
}
