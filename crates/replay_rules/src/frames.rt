// One frame by the frame call, and by the scan. A line's words: the length of the payload, up to ten; its ten bytes, 0 where there is none; the kind, two words; the code; integer and fraction of
// both delays; both rules; the delay that is carried on; the seven counters behind the frame. Beside a refusal the delays and the rules are 0.
ghost use Rattle.std.specs.Prelude.{◌≤◌};

use crate::counting;
use crate::rows::{FRAME, Row, Rows, SCAN};
use refusal::Refusal;
use replay::part;
use replay::tally::Tally;
use rule::{Report, Rules};

const CARRIED: usize = 61;

// What lent samples hold before a call.
const LENT: i16 = 21845;

// What a call answered; 0 beside a refusal.
#[derive(Clone, Copy)]
struct Found {
    code: u32,
    delays: [i16; 4],
    rules: [u32; 2],
}

fn numbers(r: Rules) -> [u32; 2] {
    let first = r.first;
    let second = r.second;
    [rule::number(first), rule::number(second)]
}

fn refused(code: u32) -> Found {
    Found {
        code: code,
        delays: [0i16; 4],
        rules: [0u32; 2],
    }
}

fn handed_up(r: Report) -> Found {
    let first = r.first;
    let second = r.second;
    let rules = numbers(r.rules);
    Found {
        code: 0,
        delays: [
            first.integer,
            first.fraction,
            second.integer,
            second.fraction,
        ],
        rules: rules,
    }
}

fn found_of(answer: Result<Report, Refusal>) -> Found {
    match answer {
        Err(r) => refused(r.number()),
        Ok(r) => handed_up(r),
    }
}

fn compare_rules(line: &[i16], found: [u32; 2], row: Row, tally: &mut Tally) {
    tally.count(row as usize, part::number(line, 18) as u32 != found[0]);
    tally.count(row as usize, part::number(line, 19) as u32 != found[1]);
}

// Compares what one of the two calls gave.
fn compare(line: &[i16], found: Found, carried: i16, rows: Rows, tally: &mut Tally) {
    let due = part::number(line, 13) as u32;
    tally.count(rows.code as usize, found.code != due);
    tally.word(rows.carried as usize, part::word(line, 20, 0), carried);
    if due == 0 {
        tally.words(rows.delays as usize, line, 14, &found.delays);
        compare_rules(line, found.rules, rows.rules, tally);
    }
}

// A frame that the line has as refused leaves all that was lent.
fn kept(line: &[i16], code: u32, left: bool, tally: &mut Tally) {
    if part::number(line, 13) != 0 {
        tally.count(Row::Kept as usize, code == 0 || !left);
    }
}

// The counters behind a frame: only a frame that is decoded is counted, with the rules that it hands up.
fn counted(line: &[i16], f: Result<Report, Refusal>, counts: [u32; 7]) -> [u32; 7] {
    match f {
        Err(_) => counts,
        Ok(r) => counting::more(part::wide(line, 11), r.rules, counts),
    }
}

// The counters that the line has.
fn due_counts(line: &[i16]) -> [u32; 7] {
    let due: [i16; 7] = part::array(line, 21);
    due.map(|x| basic_op::low16(x) as u32)
}

// The rules of kind and payload, as Count gets them in a line.
fn rules(line: &[i16], payload: &[u8], tally: &mut Tally) {
    if part::number(line, 13) == 0 {
        let found = rule::frame_rules(part::wide(line, 11), payload);
        compare_rules(line, numbers(found), Row::Rules, tally);
    }
}

// How many bytes of the payload are lent.
fn length(line: &[i16]) -> usize
    ensures { result ≤ 10 }
{
    10.min(part::number(line, 0) as usize)
}

// The tables, the state of a decoder, the delay that the scan carries, and the counters behind the last frame.
#[derive(Drop)]
pub struct Decoder {
    pub t: [i16; 1880],
    b: [i16; 234],
    carried: i16,
    counts: [u32; 7],
}

impl Decoder {
    pub(crate) fn new() -> Decoder {
        Decoder {
            t: [0; 1880],
            b: [0; 234],
            carried: 0,
            counts: [0; 7],
        }
    }

    // Begins afresh with this delay, whether a state may hold it or not, and counters of 0.
    pub(crate) fn start(&mut self, delay: i16) {
        let _ = state::fresh_state(&self.t, &mut self.b);
        self.b[CARRIED] = delay;
        self.carried = delay;
        self.counts = [0; 7];
    }

    // The frame call, and the counters.
    pub(crate) fn frame(&mut self, line: &[i16], tally: &mut Tally) {
        let payload = part::payload(line);
        let n = length(line);
        let before = self.b;
        let mut out = [LENT; 80];
        let answer = decoder::frame(
            &self.t,
            &mut self.b,
            part::wide(line, 11),
            &payload[0..n],
            &mut out,
        );
        let found = found_of(answer);
        compare(line, found, self.b[CARRIED], FRAME, tally);
        let left = self.b == before && out == [LENT; 80];
        kept(line, found.code, left, tally);
        self.counts = counted(line, answer, self.counts);
        counting::compare(&due_counts(line), &self.counts, Row::Counters, tally);
    }

    // The scan, and the rules of kind and payload.
    pub(crate) fn scan(&mut self, line: &[i16], tally: &mut Tally) {
        let payload = part::payload(line);
        let n = length(line);
        let before = self.carried;
        let answer = frame_delays::frame_delays(
            &mut self.carried,
            part::wide(line, 11),
            &payload[0..n],
        );
        let found = found_of(answer);
        compare(line, found, self.carried, SCAN, tally);
        kept(line, found.code, self.carried == before, tally);
        rules(line, &payload[0..n], tally);
    }
}
