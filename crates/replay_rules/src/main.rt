// Replays delays with their rules, and the counters (change request 12), against stored answers. Standard input has lines of fixed sizes, a letter and words of four hexadecimal digits; a
// number of 32 bits has two, the upper half first. T: the tables. N: a fresh decoder that carries this delay, and counters of 0. F: a frame, with what it hands up, the delay that is carried
// on and the counters behind it, from the Rust. C: a call of Count. M: a number that is a rule or none. oracle/rules writes it, some rows wrong on purpose. Prints the number of each F, C
// and M line of which something differs, and how many values were compared and differ.
#![tactic(auto)]

mod counting;
mod frames;
mod rows;

use frames::Decoder;
use replay::stream;
use replay::tally::Tally;
use rows::Row;

// Tells a row of which something differs from what it was before: `before` values did.
fn seen<R: Print>(rt: &R, before: u32, tally: &mut Tally) {
    let differs = rows::differing(tally) != before;
    tally.count(Row::Lines as usize, differs);
    if differs {
        let row = tally.compared(Row::Lines as usize);
        let _ = println!(rt; "seen as wrong: row {row}");
    }
}

// Has `compare` compare a line, and tells where something differs.
fn compared<R: Print, F: FnOnce(&[i16], &mut Tally)>(
    rt: &R,
    line: &[i16],
    tally: &mut Tally,
    compare: F,
)
    requires { F.IsAlwaysCallable compare }
{
    let before = rows::differing(tally);
    compare(line, tally);
    seen(rt, before, tally);
}

fn frame(decoder: &mut Decoder, line: &[i16], tally: &mut Tally) {
    decoder.frame(line, tally);
    decoder.scan(line, tally);
}

// The next line. None at the end.
fn line<R: Input + Print>(rt: &R, decoder: &mut Decoder, tally: &mut Tally) -> Option<()> {
    match stream::byte(rt)? {
        b'T' => stream::read_words(rt, &mut decoder.t)?,
        b'N' => {
            let [delay]: [i16; 1] = stream::words(rt)?;
            decoder.start(delay);
        }
        b'F' => {
            let line: [i16; 28] = stream::words(rt)?;
            compared(rt, &line, tally, |line, tally| frame(decoder, line, tally));
        }
        b'C' => {
            let line: [i16; 33] = stream::words(rt)?;
            compared(rt, &line, tally, counting::count);
        }
        b'M' => {
            let line: [i16; 4] = stream::words(rt)?;
            compared(rt, &line, tally, counting::number);
        }
        _ => return None,
    }
    Some(())
}

// All lines, up to 2^32 - 1.
fn main(rt: HostRuntime) {
    let mut decoder = Decoder::new();
    let mut tally = Tally::new();
    replay::repeat(|| line(&rt, &mut decoder, &mut tally));
    rows::print_all(&rt, &tally);
}
