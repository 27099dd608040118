// Lengths and places of a frame's buffers and of a state block's parts. specs/Places.antt has each under the same name, and says where it comes from.
ghost use Rattle.std.specs.Prelude.{◌≡◌, ◌≤◌};
ghost use Rattle.block.specs.Places.{exc_start, speech_start};

// Samples of a subframe and of a frame.
pub const SUBFRAME_LENGTH: usize = 40;

pub const FRAME_LENGTH: usize = 80;

// The excitation: words of the past, then the frame's.
pub const PAST_LENGTH: usize = 154;

pub const EXC_LENGTH: usize = 234;

// The speech: the last samples before the frame, then the frame's.
pub const TAIL_LENGTH: usize = 10;

pub const SPEECH_LENGTH: usize = 90;

// The state block: the parameters, the past excitation, the last samples.
pub const PAST_PLACE: usize = 70;

pub const TAIL_PLACE: usize = 224;

pub const STATE_LENGTH: usize = 234;

// The place of the subframe's first word in the excitation.
pub fn exc_start(second: bool) -> usize
    ensures value { result ≡ exc_start second }
    ensures upper_bound { result ≤ 194 }
    ensures lower_bound { 154 ≤ result }
{
    if second {
        PAST_LENGTH + SUBFRAME_LENGTH
    } else {
        PAST_LENGTH
    }
}

// The place of the subframe's first sample in the speech. One function of both would take the constant that each has by its name.
pub fn speech_start(second: bool) -> usize
    ensures value { result ≡ speech_start second }
    ensures upper_bound { result ≤ 50 }
    ensures lower_bound { 10 ≤ result }
{
    if second {
        TAIL_LENGTH + SUBFRAME_LENGTH
    } else {
        TAIL_LENGTH
    }
}
