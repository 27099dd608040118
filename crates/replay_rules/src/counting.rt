// Calls of Count. A line's words: the kind, two; both rules; the code; the seven counters before the call and behind it, two words each. Of a number: two words, whether it is a rule, and the
// number of the rule that is made of it.
ghost use Rattle.std.specs.Prelude.{◌≤◌};

use crate::rows::Row;
use count::Counts;
use refusal::Refusal;
use replay::part;
use replay::tally::Tally;
use rule::Rules;

// What Count answered; the counters are 0 beside a refusal.
#[derive(Drop)]
struct Found {
    code: u32,
    counts: [u32; 7],
}

// The counters as the lists have them: frames, lost, rule 1 to 5.
fn listed(c: Counts) -> [u32; 7] {
    [
        c.frames,
        c.lost,
        c.thirds,
        c.whole,
        c.relative,
        c.parity,
        c.concealed,
    ]
}

fn of_list(c: [u32; 7]) -> Counts {
    Counts {
        frames: c[0],
        lost: c[1],
        thirds: c[2],
        whole: c[3],
        relative: c[4],
        parity: c[5],
        concealed: c[6],
    }
}

fn answer(counted: Result<Counts, Refusal>) -> Found {
    match counted {
        Err(r) => Found {
            code: r.number(),
            counts: [0u32; 7],
        },
        Ok(c) => Found {
            code: 0,
            counts: listed(c),
        },
    }
}

// The counters with a frame more, or as they are where it is refused.
pub(crate) fn more(kind: u32, rules: Rules, counts: [u32; 7]) -> [u32; 7] {
    let found = answer(count::count(kind, rules, of_list(counts)));
    if found.code == 0 {
        found.counts
    } else {
        counts
    }
}

// The counters of a line that begin at word `from`.
fn counters(line: &[i16], from: usize) -> [u32; 7]
    requires { from ≤ 20 }
{
    let mut found = [0u32; 7];
    for (k, n) in found.iter_mut().enumerate() {
        *n = part::wide(line, from + 2 * k);
    }
    found
}

// Compares seven counters.
pub(crate) fn compare(due: &[u32; 7], found: &[u32; 7], row: Row, tally: &mut Tally) {
    for (due, found) in due.iter().zip(found) {
        tally.count(row as usize, *due != *found);
    }
}

// One call of Count.
pub(crate) fn count(line: &[i16], tally: &mut Tally) {
    let rules = Rules {
        first: rule::of_number(part::number(line, 2) as u32),
        second: rule::of_number(part::number(line, 3) as u32),
    };
    let found = answer(count::count(part::wide(line, 0), rules, of_list(counters(line, 5))));
    let due = part::number(line, 4) as u32;
    tally.count(Row::CountCode as usize, found.code != due);
    if due == 0 {
        let counts = found.counts;
        compare(&counters(line, 19), &counts, Row::Counted, tally);
    }
}

// One number.
pub(crate) fn number(line: &[i16], tally: &mut Tally) {
    let n = part::wide(line, 0);
    let due = part::number(line, 2) == 1;
    let made = rule::number(rule::of_number(n));
    tally.count(Row::Known as usize, rule::known(n) != due);
    tally.count(Row::OfNumber as usize, made != part::number(line, 3) as u32);
}
