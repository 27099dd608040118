// Scalar constants that G.729 states.

// beta lower bound 0.2, Q14 (clause 3.8, equation (47)).
pub const PITCH_SHARPENING_MIN: i16 = 3277;
// 0.9 in Q15 (equation (94)).
pub const ERASURE_PITCH_GAIN_ATTENUATION: i16 = 29491;
// 4 dB in Q10 (equation (95)).
pub const ERASURE_GAIN_MEMORY_OFFSET: i16 = 4096;
// -14 dB in Q10 (equation (95)).
pub const ERASURE_GAIN_MEMORY_FLOOR: i16 = -14336;
// Initial seed, clause 4.4.4.
pub const ERASURE_RANDOM_SEED_INITIAL: i16 = 21845;
// J = 0.0012 in Q13 (clause 3.2.4).
pub const LSF_EXPANSION_GAP_1: i16 = 10;
// J = 0.0006 in Q13 (clause 3.2.4).
pub const LSF_EXPANSION_GAP_2: i16 = 5;
