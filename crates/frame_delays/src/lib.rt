// The delays of a frame with their rules, and no samples (change request 12): for a scan that reads only delays, from the kind, the payload and the carried delay alone. It has no
// spectrum and no signal, and hands up what the frame call does (crate same_delays).
#![tactic(auto)]

ghost use Rattle.std.specs.Prelude.{◌≡◌};
ghost use Rattle.refusal.specs.Refusal.{code, numbered};
ghost use Rattle.frame_delays.specs.Delays.{refusal, Answer, frame_delays};

use block::places::FRAME_LENGTH;
use pitch::PitchState;
use refusal::Refusal;
use rule::Report;

// The first refusal that applies, in the order of the frame call: a carried delay out of range, then the kind and the payload.
#[tactic(auto, unfolding(crate::specs::Delays::refusal, decoder::specs::Call::first_of))]
fn check(carried: i16, kind: u32, payload: &[u8]) -> Result<(), Refusal>
    ensures { code result ≡ refusal carried kind payload.now }
{
    if !tables::delay_in_range(carried) {
        return Err(Refusal::StateValues);
    }
    decoder::input_check(kind, payload, FRAME_LENGTH)
}

// Both delays and both rules of a frame, with the delay that is carried on written; or why it is refused, and the carried one as it was.
#[tactic(auto, using(crate::specs::Laws::refused_by))]
pub fn frame_delays(carried: &mut i16, kind: u32, payload: &[u8]) -> Result<Report, Refusal>
    ensures { Answer.answer (numbered result) carried.new ≡ frame_delays carried.old kind payload.now }
{
    check(*carried, kind, payload)?;
    let d = plc::decide(kind, payload);
    let found = rule::delays(d, PitchState { old: *carried });
    *carried = found.state.old;
    Ok(rule::handed_up(d, found.first, found.second))
}
