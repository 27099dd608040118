// Replays the mixing of legs against stored answers. Standard input has lines of fixed sizes, a letter and words of four hexadecimal digits. L: the number of a leg and its 80 samples,
// which are held. M: a call: how many samples are lent to be mixed, and how many to hear; the code; the check sum of what is heard, two words, 0 beside a refusal; the numbers of
// ten legs that are held, whose first samples are lent. oracle/mix writes it, from the wording, some rows wrong on purpose. Prints the number of each call whose answer differs, and
// how many values were compared and differ.
#![tactic(auto)]

ghost use Rattle.std.specs.Prelude.{◌≤◌, length};

mod rows;

use replay::tally::Tally;
use replay::{part, stream};
use rows::Row;

// The samples of a leg.
const FRAME: usize = 80;

// The samples of the 64 legs that are held.
const HELD: usize = 5120;

// The most samples of a call: ten legs, of which eight may be mixed.
const MOST: usize = 800;

// Where the numbers of its legs stand in a call's line.
const LEGS_AT: usize = 5;

// What lent memory holds before a call.
const BEFORE: i16 = 21845;

// The samples of the ten legs of a call, one after another.
fn lent(held: &[i16; HELD], line: &[i16]) -> [i16; MOST] {
    let mut samples = [0i16; MOST];
    for (k, leg) in samples.chunks_mut(FRAME).enumerate() {
        let number = part::number(line, LEGS_AT + k) as usize;
        part::fill(held, FRAME * number, leg);
    }
    samples
}

// The check sum of samples, two bytes each, low byte first.
fn check_sum(samples: &[i16]) -> u32
    requires { length samples.now ≤ 800 }
{
    let mut bytes = [0u8; 1600];
    words::to_bytes(samples, &mut bytes);
    crc32::crc32(&bytes[..2 * samples.len()])
}

// Compares what a call gave: its code, and the check sum of what is heard, or that nothing was written where the code that is due is a refusal. Gives whether any differs.
fn differs(line: &[i16], code: u32, sum: u32, written: bool, tally: &mut Tally) -> bool {
    let due = part::number(line, 2) as u32;
    let other = code != due;
    tally.count(Row::Code as usize, other);
    if due == 0 {
        let unlike = sum != part::wide(line, 3);
        tally.count(Row::Heard as usize, unlike);
        return other || unlike;
    }
    tally.count(Row::Kept as usize, written);
    other || written
}

// One call.
fn replay<R: Print>(rt: &R, held: &[i16; HELD], line: &[i16], tally: &mut Tally) {
    let samples = lent(held, line);
    let n = MOST.min(part::number(line, 0) as usize);
    let m = MOST.min(part::number(line, 1) as usize);
    let mut room = [BEFORE; MOST];
    let code = refusal::code(mix::mix(&samples[0..n], &mut room[0..m]));
    let sum = check_sum(&room[..m]);
    if differs(line, code, sum, room != [BEFORE; MOST], tally) {
        let row = tally.compared(Row::Code as usize);
        let _ = println!(rt; "seen as wrong: row {row}");
    }
}

fn leg_line<R: Input>(rt: &R, held: &mut [i16; HELD]) -> Option<()> {
    let line: [i16; 81] = stream::words(rt)?;
    let at = FRAME * 63.min(part::number(&line, 0) as usize);
    block::put(held, at, &line[1..]);
    Some(())
}

fn call_line<R: Input + Print>(rt: &R, held: &[i16; HELD], tally: &mut Tally) -> Option<()> {
    let line: [i16; 15] = stream::words(rt)?;
    replay(rt, held, &line, tally);
    Some(())
}

// The next line. False at the end.
fn line<R: Input + Print>(rt: &R, held: &mut [i16; HELD], tally: &mut Tally) -> Option<()> {
    match stream::byte(rt)? {
        b'L' => leg_line(rt, held),
        b'M' => call_line(rt, held, tally),
        _ => None,
    }
}

// All lines, up to 2^32 - 1.
fn main(rt: HostRuntime) {
    let mut held = [0i16; HELD];
    let mut tally = Tally::new();
    replay::repeat(|| line(&rt, &mut held, &mut tally));
    rows::print_all(&rt, &tally);
}
