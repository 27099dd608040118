// The kinds of frame (01, Frame): 0 voice, 1 SID, 2 no transmission, 3 erased, and the payload that each comes with.
#![tactic(auto)]

ghost use Rattle.std.specs.Prelude.{◌≡◌};
ghost use Rattle.kind.specs.Kind.{known, payload_length};

// Whether a number is a kind of frame. A kind is a number wherever an operation of 01 is lent one: C hands in any, and 5 refuses the others.
pub fn known(kind: u32) -> bool
    ensures { result ≡ known kind }
{
    kind <= 3
}

// The length of the payload that a frame of a kind comes with.
#[tactic(auto, unfolding(crate::specs::Kind::payload_length))]
pub fn payload_length(kind: u32) -> usize
    ensures { result ≡ payload_length kind }
{
    match kind {
        0 => 10,
        1 => 2,
        _ => 0,
    }
}
