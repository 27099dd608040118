// Replays the trying of playout depths against stored answers. Standard input has lines of fixed sizes, a letter and words of four hexadecimal digits; a number of 32 bits has two, the upper
// half first. A: a place and eight arrivals, first their frame numbers, then their times, which are held from that place on. P: a call: frames, start and depth; how many numbers, times and
// kinds are lent; the place of its first arrival, and how many places each next one is behind; the code; the lost count and the check sum of the kinds, 0 beside a refusal. oracle/playout
// writes it, from the wording, some rows wrong on purpose. Prints the number of each call whose answer differs, and how many values were compared and differ.
#![tactic(auto)]

ghost use Rattle.std.specs.Prelude.{◌≤◌};

mod rows;

use refusal::Refusal;
use replay::tally::Tally;
use replay::{part, stream};
use rows::Row;

// The arrivals that are held: numbers and times are two lists, as `playout` is lent them.
const HELD: usize = 4096;

// The most numbers, times or kinds that a call lends.
const ROOM: usize = 8200;

// What lent kinds hold before a call.
const BEFORE: u32 = 1431655765;

// What a call answered; no frame is lost beside a refusal.
#[derive(Drop)]
struct Found {
    code: u32,
    lost: u32,
}

// The eight numbers of a line that begin at word `from`, put to their places where there are these.
fn put_all(held: &mut [u32], line: &[i16], from: usize)
    requires { from ≤ 20 }
{
    let place = part::number(line, 0) as usize;
    for k in 0..8usize {
        if let Some(x) = held.get_mut(place + k) {
            *x = part::wide(line, from + 2 * k);
        }
    }
}

// What a call lends of the numbers or of the times that are held. The last place is followed by the first.
fn lent(held: &[u32; HELD], line: &[i16]) -> [u32; ROOM] {
    let mut lent = [0u32; ROOM];
    let step = part::number(line, 10) as usize;
    let mut at = part::number(line, 9) as usize % HELD;
    for x in lent.iter_mut() {
        *x = held[at];
        at = (at + step) % HELD;
    }
    lent
}

// The check sum of kinds, four bytes each, low byte first.
fn check_sum(kinds: &[u32]) -> u32 {
    let mut sum = 0u32;
    for kind in kinds {
        sum = crc32::more(sum, &kind.to_le_bytes());
    }
    sum
}

fn answer(planned: Result<u32, Refusal>) -> Found {
    match planned {
        Err(r) => Found {
            code: r.number(),
            lost: 0,
        },
        Ok(lost) => Found { code: 0, lost },
    }
}

// Compares what a call gave: its code, and the lost count and the check sum of the kinds, or that nothing was written where the code that is due is a refusal. Gives whether any differs.
fn differs(line: &[i16], found: Found, sum: u32, written: bool, tally: &mut Tally) -> bool {
    let due = part::number(line, 11) as u32;
    let other = found.code != due;
    tally.count(Row::Code as usize, other);
    if due == 0 {
        let miscounted = found.lost != part::number(line, 12) as u32;
        let unlike = sum != part::wide(line, 13);
        tally.count(Row::Lost as usize, miscounted);
        tally.count(Row::Kinds as usize, unlike);
        return other || miscounted || unlike;
    }
    tally.count(Row::Kept as usize, written);
    other || written
}

// How many elements a call lends by word n.
fn length(line: &[i16], n: usize) -> usize
    ensures { result ≤ 8200 }
{
    ROOM.min(part::number(line, n) as usize)
}

// One call.
fn replay<R: Print>(
    rt: &R,
    numbers: &[u32; HELD],
    times: &[u32; HELD],
    line: &[i16],
    tally: &mut Tally,
) {
    let lent_numbers = lent(numbers, line);
    let lent_times = lent(times, line);
    let mut kinds = [BEFORE; ROOM];
    let n = length(line, 6);
    let m = length(line, 7);
    let k = length(line, 8);
    let planned = playout::playout(
        part::wide(line, 0),
        part::wide(line, 2),
        part::wide(line, 4),
        &lent_numbers[0..n],
        &lent_times[0..m],
        &mut kinds[0..k],
    );
    let sum = check_sum(&kinds[..k]);
    let written = kinds != [BEFORE; ROOM];
    if differs(line, answer(planned), sum, written, tally) {
        let row = tally.compared(Row::Code as usize);
        let _ = println!(rt; "seen as wrong: row {row}");
    }
}

fn arrivals_line<R: Input>(
    rt: &R,
    numbers: &mut [u32; HELD],
    times: &mut [u32; HELD],
) -> Option<()> {
    let line: [i16; 33] = stream::words(rt)?;
    put_all(numbers, &line, 1);
    put_all(times, &line, 17);
    Some(())
}

fn call_line<R: Input + Print>(
    rt: &R,
    numbers: &[u32; HELD],
    times: &[u32; HELD],
    tally: &mut Tally,
) -> Option<()> {
    let line: [i16; 15] = stream::words(rt)?;
    replay(rt, numbers, times, &line, tally);
    Some(())
}

// The next line. False at the end.
fn line<R: Input + Print>(
    rt: &R,
    numbers: &mut [u32; HELD],
    times: &mut [u32; HELD],
    tally: &mut Tally,
) -> Option<()> {
    match stream::byte(rt)? {
        b'A' => arrivals_line(rt, numbers, times),
        b'P' => call_line(rt, numbers, times, tally),
        _ => None,
    }
}

// All lines, up to 2^32 - 1.
fn main(rt: HostRuntime) {
    let mut numbers = [0u32; HELD];
    let mut times = [0u32; HELD];
    let mut tally = Tally::new();
    replay::repeat(|| line(&rt, &mut numbers, &mut times, &mut tally));
    rows::print_all(&rt, &tally);
}
