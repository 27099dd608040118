// The decoder's tables (clauses 3 to 4.4 of G.729). The trained ones are handed in as one block of 1,880 words, read here:
// every reader takes any block, and a word past its end reads as 0. Those by formula are in `formula`, stated constants in `text`.
#![tactic(auto)]

ghost use Rattle.std.specs.Prelude.{◌≡◌};
ghost use Rattle.refusal.specs.Refusal.{code};
ghost use Rattle.tables.specs.Layout.{lsp_cb1, lsp_cb2, lsp_ma, lsp_ma_sum, lsp_ma_sum_inv, b30, gain_ga, gain_gb, map_ga, map_gb, initial_lsp, place, scalar, delay_in_range, table_check};

use refusal::Refusal;

pub mod formula;
pub mod text;

// The scalars of the block, in its order.
#[derive(Clone, Copy, PartialEq, Eq, Debug)]
pub enum Scalar {
    // Upper bound of the pitch-sharpening factor, Q14.
    PitchSharpeningMax,
    // Integer pitch delay assumed before the first frame.
    InitialPreviousPitchDelay,
    // Amplitude of a positive fixed-codebook pulse, Q13.
    FixedCodebookPulsePositive,
    // Gain prediction: base-2 log to dB scale, Q13.
    GainPredictionLogScale,
    // Gain prediction: mean energy, mantissa.
    GainPredictionMeanEnergyMantissa,
    // Gain prediction: mean energy, multiplier.
    GainPredictionMeanEnergyMultiplier,
    // Gain prediction: dB to base-2 exponent, Q15.
    GainPredictionDbToLog2,
    // Gain-predictor update: base-2 log to dB, Q12.
    GainUpdateLog2ToDb,
    // Erasure: upper limit of the attenuated pitch gain.
    ErasurePitchGainLimit,
    // Erasure: fixed-codebook gain attenuation, Q15.
    ErasureFixedGainAttenuation,
    // LSF to LSP: 1/(2 pi) in Q17, which is 64/pi table entries a radian in Q10.
    LsfToLspFrequencyScale,
    // LSF stability: lowest first LSF, Q13.
    LsfStabilityLowLimit,
    // LSF stability: highest last LSF, Q13.
    LsfStabilityHighLimit,
    // LSF stability: minimum distance, Q13.
    LsfStabilityMinDistance,
}

// Row i of the first LSF codebook (clause 3.2.4).
pub fn lsp_cb1(t: &[i16], i: u16) -> [i16; 10]
    ensures { result ≡ lsp_cb1 t.now i }
{
    block::words_at::<10>(t, 10 * (i as usize))
}

// Row i of the second LSF codebooks (clause 3.2.4).
pub fn lsp_cb2(t: &[i16], i: u16) -> [i16; 10]
    ensures { result ≡ lsp_cb2 t.now i }
{
    block::words_at::<10>(t, 1280 + 10 * (i as usize))
}

// The moving-average weights of predictor p (clause 3.2.4).
pub fn lsp_ma(t: &[i16], p: u16) -> [[i16; 10]; 4]
    ensures { result ≡ lsp_ma t.now p }
{
    let n = 40 * (p as usize);
    let a = block::words_at::<10>(t, 1600 + n);
    let b = block::words_at::<10>(t, 1610 + n);
    let c = block::words_at::<10>(t, 1620 + n);
    let d = block::words_at::<10>(t, 1630 + n);
    [a, b, c, d]
}

// The complement of predictor p's weights (clause 3.2.4).
pub fn lsp_ma_sum(t: &[i16], p: u16) -> [i16; 10]
    ensures { result ≡ lsp_ma_sum t.now p }
{
    block::words_at::<10>(t, 1680 + 10 * (p as usize))
}

// Its inverse, for the memory of an erased frame (clause 4.4.1).
pub fn lsp_ma_sum_inv(t: &[i16], p: u16) -> [i16; 10]
    ensures { result ≡ lsp_ma_sum_inv t.now p }
{
    block::words_at::<10>(t, 1700 + 10 * (p as usize))
}

// The interpolation filter of the adaptive codebook (clause 3.7.1).
#[tactic(auto, unfolding(crate::specs::Layout::b30))]
pub fn b30(t: &[i16]) -> [i16; 31]
    ensures { result ≡ b30 t.now }
{
    let mut out = [0i16; 31];
    block::words(t, 1720, &mut out);
    out
}

// Word j of row i of the gain codebook GA (clause 3.9.2).
pub fn gain_ga(t: &[i16], i: u16, j: u16) -> i16
    ensures { result ≡ gain_ga t.now i j }
{
    block::word(t, 1751 + 2 * (i as usize) + (j as usize))
}

// Word j of row i of the gain codebook GB (clause 3.9.2).
pub fn gain_gb(t: &[i16], i: u16, j: u16) -> i16
    ensures { result ≡ gain_gb t.now i j }
{
    block::word(t, 1767 + 2 * (i as usize) + (j as usize))
}

// The row of GA for the transmitted index i (clause 3.9.3).
pub fn map_ga(t: &[i16], i: u16) -> i16
    ensures { result ≡ map_ga t.now i }
{
    block::word(t, 1799 + (i as usize))
}

// The row of GB for the transmitted index i (clause 3.9.3).
pub fn map_gb(t: &[i16], i: u16) -> i16
    ensures { result ≡ map_gb t.now i }
{
    block::word(t, 1807 + (i as usize))
}

// The LSP vector of the frame before the first (clause 3.2.5).
pub fn initial_lsp(t: &[i16]) -> [i16; 10]
    ensures { result ≡ initial_lsp t.now }
{
    block::words_at::<10>(t, 1856)
}

// The place of a scalar among the scalars.
fn place(s: Scalar) -> usize
    ensures { result ≡ place s }
{
    s as usize
}

// A scalar of the block. (Not `scalar`: a function and an enum may not differ in case alone.)
#[tactic(auto, unfolding(crate::specs::Layout::scalar))]
pub fn scalars(t: &[i16], s: Scalar) -> i16
    ensures { result ≡ scalar t.now s }
{
    block::word(t, 1866 + place(s))
}

// Whether a delay is one that the excitation holds the words for.
#[tactic(auto, unfolding(crate::specs::Layout::delay_in_range))]
pub fn delay_in_range(delay: i16) -> bool
    ensures { result ≡ delay_in_range delay }
{
    (19..=144).contains(&delay)
}

// Whether a block can be used: it has its length, and an initial delay in range.
#[tactic(auto, unfolding(crate::specs::Layout::table_check))]
pub fn table_check(t: &[i16]) -> Result<(), Refusal>
    ensures { code result ≡ table_check t.now }
{
    if t.len() != 1880 {
        return Err(Refusal::TableLength);
    }
    if !delay_in_range(scalars(t, Scalar::InitialPreviousPitchDelay)) {
        return Err(Refusal::TableDelay);
    }
    Ok(())
}
