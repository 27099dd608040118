// Arguments that the operations refuse, or not: 1 to 8.
// A line's words: length of the tables and initial delay, length of the state, predictor and delay, kind, lengths of the payload, of the
// samples and of the receiver; then the answers of table check, fresh state, frame and fields; and the word that lent memory holds, which a refusal leaves there.
ghost use Rattle.std.specs.Prelude.{◌≤◌};

use crate::rows::Row;
use replay::part;
use replay::tally::Tally;

// A length that the line gives, and no more than there is room for.
fn length(line: &[i16], at: usize, most: usize) -> usize
    ensures { result ≤ most }
{
    (part::number(line, at) as usize).min(most)
}

// A table block of zeros but for the initial delay.
fn tables_of(line: &[i16]) -> [i16; 1900] {
    let mut t = [0i16; 1900];
    t[1867] = part::word(line, 1, 0);
    t
}

// The word that lent memory holds before a call.
const LENT: i16 = 7;

// The same as the line has it.
fn lent_of(line: &[i16]) -> i16 {
    part::word(line, 13, 0)
}

// A state block of one word but for the predictor and the delay.
fn state_of(line: &[i16], lent: i16) -> [i16; 250] {
    let mut b = [lent; 250];
    b[40] = part::word(line, 3, 0);
    b[61] = part::word(line, 4, 0);
    b
}

// The operations on as much as the line says of the room that they are lent.
fn table_check(line: &[i16], t: &[i16]) -> u32 {
    let n = length(line, 0, t.len());
    refusal::code(tables::table_check(&t[0..n]))
}

fn fresh_state(line: &[i16], t: &[i16], b: &mut [i16]) -> u32 {
    let n = length(line, 0, t.len());
    let m = length(line, 2, b.len());
    refusal::code(state::fresh_state(&t[0..n], &mut b[0..m]))
}

fn frame(line: &[i16], t: &[i16], b: &mut [i16], payload: &[u8], out: &mut [i16]) -> u32 {
    let n = length(line, 0, t.len());
    let m = length(line, 2, b.len());
    let k = length(line, 6, payload.len());
    let room = length(line, 7, out.len());
    let kind = part::number(line, 5) as u32;
    refusal::code(decoder::frame(
        &t[0..n],
        &mut b[0..m],
        kind,
        &payload[0..k],
        &mut out[0..room],
    ))
}

fn fields(line: &[i16], payload: &[u8], receiver: &mut [u16]) -> u32 {
    let k = length(line, 6, payload.len());
    let m = length(line, 8, receiver.len());
    refusal::code(bitstream::fields(&payload[0..k], &mut receiver[0..m]))
}

// Compares an answer with the number of a place.
fn answer(line: &[i16], at: usize, found: u32, tally: &mut Tally) {
    tally.count(
        Row::Refusals as usize,
        part::number(line, at) as u32 != found,
    );
}

// A refused call leaves the state as it was.
fn same_state(line: &[i16], after: [i16; 250], tally: &mut Tally) {
    let due = state_of(line, lent_of(line));
    tally.words(Row::Unchanged as usize, &due, 0, &after);
}

// A refused call leaves the samples as they were.
fn same_samples(line: &[i16], out: [i16; 100], tally: &mut Tally) {
    let lent = lent_of(line);
    let due = [lent; 100];
    tally.words(Row::Unchanged as usize, &due, 0, &out);
}

fn fresh_state_call(line: &[i16], tally: &mut Tally) {
    let t = tables_of(line);
    let mut b = state_of(line, LENT);
    let code = fresh_state(line, &t, &mut b);
    answer(line, 10, code, tally);
    if code != 0 {
        same_state(line, b, tally);
    }
}

fn frame_call(line: &[i16], tally: &mut Tally) {
    let t = tables_of(line);
    let payload = [0u8; 16];
    let mut b = state_of(line, LENT);
    let mut out = [LENT; 100];
    let code = frame(line, &t, &mut b, &payload, &mut out);
    answer(line, 11, code, tally);
    if code != 0 {
        same_state(line, b, tally);
        same_samples(line, out, tally);
    }
}

// One line of arguments.
pub(crate) fn line(words: &[i16], tally: &mut Tally) {
    let t = tables_of(words);
    let payload = [0u8; 16];
    let mut receiver = [0u16; 20];
    answer(words, 9, table_check(words, &t), tally);
    fresh_state_call(words, tally);
    frame_call(words, tally);
    answer(words, 12, fields(words, &payload, &mut receiver), tally);
}
