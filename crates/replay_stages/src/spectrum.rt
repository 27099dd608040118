// The stages from the fields to the coefficients: clauses 3.2.4 to 3.2.6, 4.1.1 and 4.4.1.
// `t`: the tables; `s`: the state before the frame; `f`: the words of the frame's line.
use crate::rows::Row;
use bitstream::SpeechParams;
use replay::part;
use replay::tally::Tally;

// The four past rows of a state.
fn past_rows(s: &[i16]) -> [[i16; 10]; 4] {
    let first = part::array(s, 0);
    let second = part::array(s, 10);
    let third = part::array(s, 20);
    let fourth = part::array(s, 30);
    [first, second, third, fourth]
}

// The row of a voice frame, and the frequencies that it gives.
pub(crate) fn voice(p: SpeechParams, t: &[i16], s: &[i16], f: &[i16], tally: &mut Tally) {
    let row = lsp::new_row(t, p.l1, p.l2, p.l3);
    tally.words(Row::NewRow as usize, f, 27, &row);
    let omega = lsp::decode_lsf(t, p.l0, part::array(f, 27), past_rows(s));
    tally.words(Row::DecodeLsf as usize, f, 37, &omega);
    tally.number(Row::Carried as usize, f, 545, p.l0);
}

// The row of a concealed frame, whose frequencies and predictor are the last ones.
pub(crate) fn concealed(t: &[i16], s: &[i16], f: &[i16], tally: &mut Tally) {
    let predictor = part::word(s, 40, 0);
    let omega = part::array(s, 41);
    let row = lsp::erased_row(t, predictor, omega, past_rows(s));
    tally.words(Row::ErasedRow as usize, f, 27, &row);
    tally.words(Row::Carried as usize, f, 37, &omega);
    tally.word(Row::Carried as usize, part::word(f, 545, 0), predictor);
}

// The rows that the frame leaves.
fn past(s: &[i16], f: &[i16], tally: &mut Tally) {
    let [first, second, third, fourth] = lsp::remember_output(past_rows(s), part::array(f, 27));
    tally.words(Row::Remember as usize, f, 505, &first);
    tally.words(Row::Remember as usize, f, 515, &second);
    tally.words(Row::Remember as usize, f, 525, &third);
    tally.words(Row::Remember as usize, f, 535, &fourth);
}

// The LSP of both subframes.
fn lsps(t: &[i16], s: &[i16], f: &[i16], tally: &mut Tally) {
    let current = lsp::lsf_to_lsp(t, part::array(f, 37));
    tally.words(Row::Lsp as usize, f, 57, &current);
    let first = lsp::interpolate(part::array(s, 51), part::array(f, 57));
    tally.words(Row::Interpolate as usize, f, 47, &first);
}

// The coefficients of both subframes.
fn coefficients(f: &[i16], tally: &mut Tally) {
    let first = lpc::lsp_to_lp(part::array(f, 47));
    tally.words(Row::Lp as usize, f, 67, &first);
    let second = lpc::lsp_to_lp(part::array(f, 57));
    tally.words(Row::Lp as usize, f, 78, &second);
}

// The frequencies and the LSP that the frame leaves are its own.
fn carried(f: &[i16], tally: &mut Tally) {
    let omega: [i16; 10] = part::array(f, 37);
    tally.words(Row::Carried as usize, f, 546, &omega);
    let current: [i16; 10] = part::array(f, 57);
    tally.words(Row::Carried as usize, f, 556, &current);
}

// What is the same in both kinds of frame.
pub(crate) fn both(t: &[i16], s: &[i16], f: &[i16], tally: &mut Tally) {
    past(s, f, tally);
    lsps(t, s, f, tally);
    coefficients(f, tally);
    carried(f, tally);
}
