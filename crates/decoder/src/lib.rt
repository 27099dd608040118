// The frame call (01, Frame; G.729 clause 4.1.6; lib.rs of the Rust, up to `reconstruct`): what is refused, and a frame's signal from its parameters.
#![tactic(auto)]

ghost use Rattle.std.specs.Prelude.{◌≡◌, true, false};
ghost use Rattle.refusal.specs.Refusal.{code, numbered};
ghost use Rattle.decoder.specs.Frame.{subframe_signal, frame_buffers};
ghost use Rattle.decoder.specs.Call.{input_check, refusal, Answer, frame};
ghost use Rattle.state.specs.State.{read_signal};

use block::places::{EXC_LENGTH, FRAME_LENGTH, PAST_PLACE, SPEECH_LENGTH, TAIL_LENGTH, TAIL_PLACE};
use parameters::{Decoded, Subframe};
use refusal::Refusal;
use rule::Report;

// A frame's 234 words of excitation and its 90 of speech: the words kept from the frame before, and 80 of its own.
#[derive(Clone, Copy)]
pub struct Buffers {
    pub exc: [i16; EXC_LENGTH],
    pub speech: [i16; SPEECH_LENGTH],
}

impl Buffers {
    // As a frame opens them: the words that a state block keeps, and zeros.
    #[tactic(auto, unfolding(crate::specs::Frame::frame_buffers, state::specs::State::read_signal))]
    fn opened(b: &[i16]) -> Buffers
        ensures { result ≡ frame_buffers (read_signal b.now) }
    {
        Buffers {
            exc: state::opened(b, PAST_PLACE),
            speech: state::opened(b, TAIL_PLACE),
        }
    }

    // The signal of one subframe: equations (40) and (75), then (77) with its second run.
    pub fn subframe_signal(&mut self, t: &[i16], second: bool, v: &Subframe)
        ensures { self.new ≡ subframe_signal t.now second v.now self.old }
    {
        adaptive::adaptive_vector(
            &tables::b30(t),
            &mut self.exc,
            second,
            v.delay.integer,
            v.delay.fraction,
        );
        synth::excitation(&mut self.exc, second, &v.code, v.gp, v.gc);
        synth::reconstruct(&v.a, &mut self.exc, second, &mut self.speech);
    }

    // The signal of the frame: its two subframes, one after the other.
    pub fn frame_signal(&mut self, t: &[i16], v: &Decoded)
        ensures { self.new ≡ subframe_signal t.now true v.now.second (subframe_signal t.now false v.now.first self.old) }
    {
        self.subframe_signal(t, false, &v.first);
        self.subframe_signal(t, true, &v.second);
    }
}

// Refusals 5 to 7 (01): the kind, the payload's length, and the room for the samples.
#[tactic(auto, unfolding(crate::specs::Call::input_check))]
pub fn input_check(kind: u32, payload: &[u8], room: usize) -> Result<(), Refusal>
    ensures { code result ≡ input_check kind payload.now room }
{
    if !kind::known(kind) {
        return Err(Refusal::Kind);
    }
    if payload.len() != kind::payload_length(kind) {
        return Err(Refusal::PayloadLength);
    }
    if room != FRAME_LENGTH {
        return Err(Refusal::OutputLength);
    }
    Ok(())
}

// The first refusal that applies (01): 1 to 4 of the two blocks, then 5 to 7.
#[tactic(auto, unfolding(crate::specs::Call::refusal, crate::specs::Call::first_of))]
pub fn check(t: &[i16], b: &[i16], kind: u32, payload: &[u8], room: usize) -> Result<(), Refusal>
    ensures { code result ≡ refusal t.now b.now kind payload.now room }
{
    tables::table_check(t)?;
    state::state_check(b)?;
    input_check(kind, payload, room)
}

// The operation Frame (01; change request 12): the delays that the subframes used with their rules, with the state block and the 80 samples written;
// or why it is refused, and both as they were.
#[tactic(auto, using(crate::specs::Laws::refused_by))]
pub fn frame(
    t: &[i16],
    b: &mut [i16],
    kind: u32,
    payload: &[u8],
    out: &mut [i16],
) -> Result<Report, Refusal>
    ensures { Answer.answer (numbered result) b.new out.new ≡ frame t.now b.old kind payload.now out.old }
{
    check(t, b, kind, payload, out.len())?;
    let d = plc::decide(kind, payload);
    let v = parameters::parameters(t, d, state::read_params(b));
    let mut w = Buffers::opened(b);
    w.frame_signal(t, &v);
    let left = state::write_block(v.params, &w.exc, &w.speech);
    state::copy_block(b, left);
    block::words(&w.speech, TAIL_LENGTH, out);
    Ok(rule::handed_up(d, v.first.delay, v.second.delay))
}
