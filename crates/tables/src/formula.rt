// The tables that G.729 gives by formula, as stored numbers. A read past the end of one gives 0.
ghost use Rattle.std.specs.Prelude.{◌≡◌};
ghost use Rattle.laws.specs.Lists.{at};
ghost use Rattle.tables.specs.Formula.{lsp_cosine, lsp_cosine_slope, pow2, gain_prediction_coefficients, lsp_quantizer_initial_memory, gain_predictor_initial_memory};

// b1..b4 of equation (69), Q13.
#[tactic(auto, unfolding(crate::specs::Formula::gain_prediction_coefficients))]
pub fn gain_prediction_coefficients() -> [i16; 4]
    ensures { result ≡ gain_prediction_coefficients }
{
    [5571, 4751, 2785, 1556]
}

// i*pi/11, i = 1..10, Q13 truncated (clause 3.2.4, Table 9).
#[tactic(auto, unfolding(crate::specs::Formula::lsp_quantizer_initial_memory))]
pub fn lsp_quantizer_initial_memory() -> [i16; 10]
    ensures { result ≡ lsp_quantizer_initial_memory }
{
    [
        2339, 4679, 7018, 9358, 11698, 14037, 16377, 18717, 21056, 23396,
    ]
}

// -14 dB in Q10 (Table 9).
#[tactic(auto, unfolding(crate::specs::Formula::gain_predictor_initial_memory))]
pub fn gain_predictor_initial_memory() -> [i16; 4]
    ensures { result ≡ gain_predictor_initial_memory }
{
    [-14336; 4]
}

// cos(i*pi/64), i = 0..63, Q15 (clauses 3.2.6 and 4.1.1).
static LSP_COSINE: [i16; 64] = [
    32767, 32729, 32610, 32413, 32138, 31786, 31357, 30853, 30274, 29622, 28899, 28106, 27246,
    26320, 25330, 24279, 23170, 22006, 20788, 19520, 18205, 16846, 15447, 14010, 12540, 11039,
    9512, 7962, 6393, 4808, 3212, 1608, 0, -1608, -3212, -4808, -6393, -7962, -9512, -11039,
    -12540, -14010, -15447, -16846, -18205, -19520, -20788, -22006, -23170, -24279, -25330, -26320,
    -27246, -28106, -28899, -29622, -30274, -30853, -31357, -31786, -32138, -32413, -32610, -32729,
];

// Entry i of `LSP_COSINE`.
#[tactic(auto, unfolding(crate::specs::Formula::lsp_cosine))]
pub fn lsp_cosine(i: usize) -> i16
    ensures { result ≡ at lsp_cosine i }
{
    block::word(&LSP_COSINE, i)
}

// Slope from each point of `lsp_cosine` to the next, of the exact cosine, Q19.
static LSP_COSINE_SLOPE: [i16; 64] = [
    -632, -1893, -3150, -4399, -5638, -6863, -8072, -9261, -10428, -11570, -12684, -13767, -14817,
    -15832, -16808, -17744, -18637, -19486, -20287, -21039, -21741, -22390, -22986, -23526, -24009,
    -24435, -24801, -25108, -25354, -25540, -25664, -25726, -25726, -25664, -25540, -25354, -25108,
    -24801, -24435, -24009, -23526, -22986, -22390, -21741, -21039, -20287, -19486, -18637, -17744,
    -16808, -15832, -14817, -13767, -12684, -11570, -10428, -9261, -8072, -6863, -5638, -4399,
    -3150, -1893, -632,
];

// Entry i of `LSP_COSINE_SLOPE`.
#[tactic(auto, unfolding(crate::specs::Formula::lsp_cosine_slope))]
pub fn lsp_cosine_slope(i: usize) -> i16
    ensures { result ≡ at lsp_cosine_slope i }
{
    block::word(&LSP_COSINE_SLOPE, i)
}

// 2^(i/32), i = 0..32, Q14 (clause 3.9.1, equation (71)).
static POW2: [i16; 33] = [
    16384, 16743, 17109, 17484, 17867, 18258, 18658, 19066, 19484, 19911, 20347, 20792, 21247,
    21713, 22188, 22674, 23170, 23678, 24196, 24726, 25268, 25821, 26386, 26964, 27554, 28158,
    28774, 29405, 30048, 30706, 31379, 32066, 32767,
];

// Entry i of `POW2`.
#[tactic(auto, unfolding(crate::specs::Formula::pow2))]
pub fn pow2(i: usize) -> i16
    ensures { result ≡ at pow2 i }
{
    block::word(&POW2, i)
}
