// Replays the Rust's answers for each basic operator. Standard input has a call a line, `OO AAAAAAAA BBBBBBBB CCCCCCCC RRRRRRRR SSSSSSSS`:
// the operator, its arguments and its results in hexadecimal, two's complement (oracle/README.md says how the list is made).
// It prints, for each operator, how many calls were compared and how many differ.
#![tactic(auto)]

mod call;

use call::Results;
use replay::tally::Tally;
use replay::{hex, stream};

// Whether the operator gives what the line says.
fn agrees(line: &[u8]) -> bool {
    let found = call::call(
        hex::field(line, 0, 2),
        hex::field(line, 3, 8),
        hex::field(line, 12, 8),
        hex::field(line, 21, 8),
    );
    let due = Results {
        first: hex::field(line, 30, 8),
        second: hex::field(line, 39, 8),
    };
    found == due
}

// The next line; the row that counts it is the operator's. None at the end.
fn line<R: Input>(rt: &R, tally: &mut Tally) -> Option<()> {
    let mut text = [0u8; 48];
    if stream::read_full(rt, &mut text) < 48 {
        return None;
    }
    let op = (hex::field(&text, 0, 2) % 32) as usize;
    tally.count(op, !agrees(&text));
    Some(())
}

// All lines, up to 2^32 - 1.
fn main(rt: HostRuntime) {
    let mut tally = Tally::new();
    replay::repeat(|| line(&rt, &mut tally));
    for op in 0..32usize {
        let (calls, differ) = (tally.compared(op), tally.differ(op));
        let _ = println!(rt; "{op:02x} calls {calls} differ {differ}");
    }
}
