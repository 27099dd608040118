// The state block (01, "The table block and the state block"; the layout is added): 234 words that a caller keeps between frames.
// Words 0 to 69 are the parameters, which the next frame's parameters depend on, words 70 to 233 the signal.
#![tactic(auto)]

ghost use Rattle.std.specs.Prelude.{◌≡◌, List, ◌++◌, ◌-◌, min, cond, eqb, ℤ, pos, length, drop, replicate};
ghost use Rattle.refusal.specs.Refusal.{code};
ghost use Rattle.block.specs.Block.{part};
ghost use Rattle.block.specs.Laws.{Front};
ghost use Rattle.block.specs.Places.{frame_length, past_length, past_place, tail_length, tail_place, state_length};
ghost use Rattle.state.specs.State.{read_params, lsp_params, excitation_params, write_params, write, fresh_params, fresh, accepted, state_check, Answer, fresh_state};

use block::places::{
    EXC_LENGTH, FRAME_LENGTH, PAST_LENGTH, PAST_PLACE, SPEECH_LENGTH, STATE_LENGTH, TAIL_LENGTH,
    TAIL_PLACE,
};
use gain::GainState;
use pitch::PitchState;
use refusal::Refusal;

// Words 0 to 69 (G.729 clauses 3.2.4, 3.2.5, 3.9.1 and 4.4).
#[derive(Clone, Copy)]
pub struct Params {
    // The four past outputs of the LSF quantizer, Q13, newest first. Fields and not an array: `SameParams` and `Sized`, which theorems cite, name each.
    pub r0: [i16; 10],
    pub r1: [i16; 10],
    pub r2: [i16; 10],
    pub r3: [i16; 10],
    // The predictor and the LSF of the last voice frame.
    pub predictor: i16,
    pub omega: [i16; 10],
    // The LSP of the frame before.
    pub lsp: [i16; 10],
    // The carried delay.
    pub pitch: PitchState,
    // The generator of an erased frame's pulses.
    pub seed: i16,
    // The gain memory and the past gains.
    pub gain: GainState,
    // The sharpening factor, Q14.
    pub beta: i16,
}

// ---- from a block to values

// The parameters of a block, words 0 to 69.
#[tactic(auto, unfolding(crate::specs::State::read_params))]
pub fn read_params(b: &[i16]) -> Params
    ensures { result ≡ read_params b.now }
{
    Params {
        r0: block::words_at(b, 0),
        r1: block::words_at(b, 10),
        r2: block::words_at(b, 20),
        r3: block::words_at(b, 30),
        predictor: block::word(b, 40),
        omega: block::words_at(b, 41),
        lsp: block::words_at(b, 51),
        pitch: PitchState {
            old: block::word(b, 61),
        },
        seed: block::word(b, 62),
        gain: GainState {
            mem: block::words_at(b, 63),
            gp: block::word(b, 67),
            gc: block::word(b, 68),
        },
        beta: block::word(b, 69),
    }
}

// A buffer that a frame starts with, of past excitation or of samples: the words from p on, and room for 80 more.
pub fn opened<const N: usize>(b: &[i16], p: usize) -> [i16; N]
    ensures { result ≡ part b.now p (N - frame_length) ++ replicate (min N frame_length) (pos 0) }
{
    let mut out = [0i16; N];
    block::words(b, p, &mut out[..N.saturating_sub(FRAME_LENGTH)]);
    out
}

// ---- and back

// Words 0 to 60 of a block.
fn write_lsp_params(p: Params, out: &mut [i16; STATE_LENGTH])
    ensures { length out.old ≡ state_length → Front state_length out.new 61 (lsp_params p) }
{
    block::put(out, 0, &p.r0);
    block::put(out, 10, &p.r1);
    block::put(out, 20, &p.r2);
    block::put(out, 30, &p.r3);
    block::put_word(out, 40, p.predictor);
    block::put(out, 41, &p.omega);
    block::put(out, 51, &p.lsp);
}

// Words 61 to 69 behind them.
fn write_excitation_params(p: Params, out: &mut [i16; STATE_LENGTH])
    ensures { (l : List ℤ) → Front state_length out.old 61 l → Front state_length out.new past_place (l ++ excitation_params p) }
{
    block::put_word(out, 61, p.pitch.old);
    block::put_word(out, 62, p.seed);
    block::put(out, 63, &p.gain.mem);
    block::put_word(out, 67, p.gain.gp);
    block::put_word(out, 68, p.gain.gc);
    block::put_word(out, 69, p.beta);
}

// The block that a frame leaves: its parameters, the last 154 words of excitation and the last ten samples.
pub fn write_block(
    p: Params,
    exc: &[i16; EXC_LENGTH],
    speech: &[i16; SPEECH_LENGTH],
) -> [i16; STATE_LENGTH]
    ensures { result ≡ write_params p ++ (drop frame_length exc.now ++ drop frame_length speech.now) }
{
    let mut out = [0i16; STATE_LENGTH];
    write_lsp_params(p, &mut out);
    write_excitation_params(p, &mut out);
    block::put(&mut out, PAST_PLACE, &exc[FRAME_LENGTH..]);
    block::put(&mut out, TAIL_PLACE, &speech[FRAME_LENGTH..]);
    out
}

// A lent block of 234 words becomes v; memory of another length stays as it was.
pub fn copy_block(b: &mut [i16], v: [i16; STATE_LENGTH])
    ensures { b.new ≡ cond (eqb (length b.old) state_length) v b.old }
{
    block::copy(b, &v);
}

// ---- refusals

// Whether the predictor and the delay are in range.
#[tactic(auto, unfolding(crate::specs::State::accepted, crate::specs::State::read_params, crate::specs::State::predictor_in_range))]
pub fn accepted(b: &[i16]) -> bool
    ensures { result ≡ accepted (read_params b.now) }
{
    (0..=1).contains(&block::word(b, 40)) && tables::delay_in_range(block::word(b, 61))
}

// Whether a state block can be used: it has its length, and a predictor and a delay in range.
#[tactic(auto, unfolding(crate::specs::State::state_check))]
pub fn state_check(b: &[i16]) -> Result<(), Refusal>
    ensures { code result ≡ state_check b.now }
{
    if b.len() != STATE_LENGTH {
        return Err(Refusal::StateLength);
    }
    if !accepted(b) {
        return Err(Refusal::StateValues);
    }
    Ok(())
}

// ---- the operation Fresh state

// The parameters before the first frame (01; Table 9 of G.729 and clause 4.4.4).
#[tactic(auto, unfolding(crate::specs::State::fresh_params))]
pub fn fresh_params(t: &[i16]) -> Params
    ensures { result ≡ fresh_params t.now }
{
    let row = tables::formula::lsp_quantizer_initial_memory();
    Params {
        r0: row,
        r1: row,
        r2: row,
        r3: row,
        predictor: 0,
        omega: row,
        lsp: tables::initial_lsp(t),
        pitch: PitchState {
            old: tables::scalars(t, tables::Scalar::InitialPreviousPitchDelay),
        },
        seed: tables::text::ERASURE_RANDOM_SEED_INITIAL,
        gain: GainState {
            mem: tables::formula::gain_predictor_initial_memory(),
            gp: 0,
            gc: 0,
        },
        beta: tables::text::PITCH_SHARPENING_MIN,
    }
}

// The block before the first frame.
#[tactic(auto, unfolding(crate::specs::State::write, crate::specs::State::fresh))]
fn fresh_block(t: &[i16]) -> [i16; STATE_LENGTH]
    ensures { result ≡ write (fresh t.now) }
{
    write_block(fresh_params(t), &[0; EXC_LENGTH], &[0; SPEECH_LENGTH])
}

// The operation Fresh state (01): the block written; or why it is refused, and the block as it was.
#[tactic(auto, unfolding(crate::specs::State::fresh_state))]
pub fn fresh_state(t: &[i16], b: &mut [i16]) -> Result<(), Refusal>
    ensures { Answer.answer (code result) b.new ≡ fresh_state t.now b.old }
{
    tables::table_check(t)?;
    if b.len() != STATE_LENGTH {
        return Err(Refusal::StateLength);
    }
    copy_block(b, fresh_block(t));
    Ok(())
}
