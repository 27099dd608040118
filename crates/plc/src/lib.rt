// What a received frame is decoded as (G.729 clause 4.4): a voice frame by its fields, every other by concealment.
#![tactic(auto)]

ghost use Rattle.std.specs.Prelude.{◌≡◌};
ghost use Rattle.plc.specs.Kinds.{decide};

use bitstream::SpeechParams;

// A voice frame's fields, or that the frame is concealed. Not an Option: a concealed frame is decoded too, and None would not say how, in any of the functions and definitions that have a case for each.
#[derive(Clone, Copy)]
pub enum Decision {
    Voice(SpeechParams),
    Concealment,
}

// What a frame is decoded as. Of an accepted frame the kind is at most 3, and the payload of kind 0 has ten bytes.
#[tactic(auto, unfolding(crate::specs::Kinds::decide))]
pub fn decide(kind: u32, payload: &[u8]) -> Decision
    ensures { result ≡ decide kind payload.now }
{
    if kind > 0 {
        return Decision::Concealment;
    }
    Decision::Voice(bitstream::unpack(payload))
}
