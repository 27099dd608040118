// How far two decoders agree from here on, through every list of frames that both receive (change request 13), told by their state blocks.
#![tactic(auto)]

ghost use Rattle.std.specs.Prelude.{◌≡◌, ◌+◌, ◌≤◌, length};
ghost use Rattle.refusal.specs.Refusal.{code, numbered};
ghost use Rattle.block.specs.Places.{state_length};
ghost use Rattle.agree.specs.Agree.{equal_words, same_parameters, same_seed_bits, same_signal, refusal, agreement, agree};

use basic_op::low16;
use block::places::{PAST_LENGTH, PAST_PLACE, STATE_LENGTH, TAIL_LENGTH};
use block::word;
use refusal::Refusal;

// In this order, so that `as` gives the number that C is told.
#[derive(Clone, Copy, PartialEq, Eq, Debug)]
pub enum Agreement {
    // Nothing can be said.
    Nothing,
    // Delays, gains, line spectral frequencies and filter coefficients.
    Parameters,
    // And the pulses, in concealed frames too.
    Pulses,
    // And the samples.
    Samples,
}

// ---- what is compared

// Whether n words from place p on are equal in both blocks.
fn equal_words(a: &[i16], b: &[i16], p: usize, n: usize) -> bool
    requires a_length { length a.now ≡ state_length }
    requires b_length { length b.now ≡ state_length }
    requires inside { p + n ≤ state_length }
    ensures { result ≡ equal_words a.now b.now p n }
{
    a[p..p + n] == b[p..p + n]
}

// Words 0 to 69, but for word 62, the seed, which no voice frame reads.
#[tactic(auto, unfolding(crate::specs::Agree::same_parameters))]
fn same_parameters(a: &[i16], b: &[i16]) -> bool
    requires a_length { length a.now ≡ state_length }
    requires b_length { length b.now ≡ state_length }
    ensures { result ≡ same_parameters a.now b.now }
{
    equal_words(a, b, 0, 62) && equal_words(a, b, 63, 7)
}

// The 13 low bits of the seeds, which the pulses of every concealed frame are made of.
#[tactic(auto, unfolding(crate::specs::Agree::same_seed_bits))]
fn same_seed_bits(a: &[i16], b: &[i16]) -> bool
    ensures { result ≡ same_seed_bits a.now b.now }
{
    low16(word(a, 62)) % 8192 == low16(word(b, 62)) % 8192
}

// The past excitation and the last ten samples.
#[tactic(auto, unfolding(crate::specs::Agree::same_signal))]
fn same_signal(a: &[i16], b: &[i16]) -> bool
    requires a_length { length a.now ≡ state_length }
    requires b_length { length b.now ≡ state_length }
    ensures { result ≡ same_signal a.now b.now }
{
    equal_words(a, b, PAST_PLACE, PAST_LENGTH + TAIL_LENGTH)
}

// ---- refusals

// The length of either block is refused before what stands in one.
#[tactic(auto, unfolding(crate::specs::Agree::refusal, state::specs::State::state_check))]
fn check(a: &[i16], b: &[i16]) -> Result<(), Refusal>
    ensures { code result ≡ refusal a.now b.now }
{
    if a.len() != STATE_LENGTH || b.len() != STATE_LENGTH {
        return Err(Refusal::StateLength);
    }
    state::state_check(a)?;
    state::state_check(b)
}

// ---- the answer

// Of two blocks that are not refused.
#[tactic(auto, unfolding(crate::specs::Agree::agreement))]
fn agreed(a: &[i16], b: &[i16]) -> Agreement
    requires a_length { length a.now ≡ state_length }
    requires b_length { length b.now ≡ state_length }
    ensures { result ≡ agreement a.now b.now }
{
    if !same_parameters(a, b) {
        return Agreement::Nothing;
    }
    if !same_seed_bits(a, b) {
        return Agreement::Parameters;
    }
    if !same_signal(a, b) {
        return Agreement::Pulses;
    }
    Agreement::Samples
}

// How far two decoders with these state blocks agree from here on, or why a block is refused.
#[tactic(auto, unfolding(crate::specs::Agree::agree))]
pub fn agree(a: &[i16], b: &[i16]) -> Result<Agreement, Refusal>
    ensures { numbered result ≡ agree a.now b.now }
{
    check(a, b)?;
    Ok(agreed(a, b))
}
