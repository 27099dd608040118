// Replays the frames of RTP payloads against the answers of the Rust's `split_rtp`. Standard input has lines of fixed sizes, a letter and words of four
// hexadecimal digits. B: 4,096 bytes, two a word, the first in its lower half, of which the payloads behind it are taken. P: place and length of a payload; its
// code and the number of its frames; kind, place and length of the last; the check sum of all frames, two words; the code of an index that is too high, and
// 0, which it has beside the code. oracle/rtp writes it, some rows wrong on purpose. Prints how many values were compared and differ.
#![tactic(auto)]

ghost use Rattle.std.specs.Prelude.{◌≤◌};

mod rows;

use replay::tally::Tally;
use replay::{part, stream};
use rows::Row;

// Indexes that no payload has. Ten times the index leaves 64 bits from the fourth on, and is the place of a frame again in the fifth and the sixth.
const HIGH: [usize; 9] = [
    4294967296,
    1844674407370955160,
    1844674407370955161,
    1844674407370955162,
    9223372036854775808,
    9223372036854775809,
    3689348814741910324,
    18446744073709551614,
    18446744073709551615,
];

// The check sum behind `sum` of a number in four bytes, low byte first.
fn number(sum: u32, n: u64) -> u32 {
    crc32::more(sum, &n.to_le_bytes()[..4])
}

// That of a frame: kind, place and length, and its bytes.
fn record(sum: u32, found: rtp::FramePart, bytes: &[u8]) -> u32 {
    let kind = number(sum, found.kind as u64);
    let start = number(kind, found.start as u64);
    crc32::more(number(start, found.length as u64), bytes)
}

// The check sum of all `n` frames. Compares their codes with that of the payload.
fn all(line: &[i16], payload: &[u8], n: usize, tally: &mut Tally) -> u32 {
    let due = part::number(line, 2) as u32;
    let mut sum = 0u32;
    for k in 0..n {
        let found = rtp::find(payload, k);
        tally.count(Row::FrameCode as usize, found.code != due);
        sum = record(sum, found, rtp::part(payload, k));
    }
    sum
}

// Compares the last of `n` frames; where there is none, what the index 0 is answered.
fn last(line: &[i16], payload: &[u8], n: usize, tally: &mut Tally) {
    let k = n.saturating_sub(1);
    let found = rtp::find(payload, k);
    tally.count(
        Row::Last as usize,
        part::number(line, 4) as u32 != found.kind,
    );
    tally.count(
        Row::Last as usize,
        part::number(line, 5) as usize != found.start,
    );
    tally.count(
        Row::Last as usize,
        part::number(line, 6) as usize != found.length,
    );
}

// Compares what an index is answered that is too high.
fn too_high(line: &[i16], payload: &[u8], index: usize, tally: &mut Tally) {
    let found = rtp::find(payload, index);
    let due = part::number(line, 10) as usize;
    tally.count(
        Row::Refusal as usize,
        part::number(line, 9) as u32 != found.code,
    );
    tally.count(Row::Beside as usize, due != found.kind as usize);
    tally.count(Row::Beside as usize, due != found.start);
    tally.count(Row::Beside as usize, due != found.length);
    tally.count(Row::Beside as usize, due != rtp::part(payload, index).len());
}

// The number of frames as an index, the next, and another.
fn next(line: &[i16], payload: &[u8], n: usize, tally: &mut Tally)
    requires { n ≤ 65535 }
{
    too_high(line, payload, n, tally);
    too_high(line, payload, n + 1, tally);
    too_high(line, payload, n + payload.len() / 10, tally);
}

// The indexes that no payload has.
fn high(line: &[i16], payload: &[u8], tally: &mut Tally) {
    for index in HIGH {
        too_high(line, payload, index, tally);
    }
}

// One payload.
fn replay(line: &[i16], payload: &[u8], tally: &mut Tally) {
    let found = rtp::frames(payload);
    let n = found.frames.min(65535);
    tally.count(Row::Payloads as usize, false);
    tally.count(
        Row::Code as usize,
        part::number(line, 2) as u32 != found.code,
    );
    tally.count(
        Row::Number as usize,
        part::number(line, 3) as usize != found.frames,
    );
    last(line, payload, n, tally);
    let sum = all(line, payload, n, tally);
    tally.count(Row::All as usize, part::wide(line, 7) != sum);
    next(line, payload, n, tally);
    high(line, payload, tally);
}

fn bytes_line<R: Input>(rt: &R, bytes: &mut [u8; 4096]) -> Option<()> {
    let held: [i16; 2048] = stream::words(rt)?;
    words::to_bytes(&held, bytes);
    Some(())
}

fn payload_line<R: Input>(rt: &R, bytes: &[u8], tally: &mut Tally) -> Option<()> {
    let line: [i16; 11] = stream::words(rt)?;
    let from = bytes.len().min(part::number(&line, 0) as usize);
    let to = bytes.len().min(from + part::number(&line, 1) as usize);
    replay(&line, &bytes[from..to], tally);
    Some(())
}

// The next line. False at the end.
fn line<R: Input>(rt: &R, bytes: &mut [u8; 4096], tally: &mut Tally) -> Option<()> {
    match stream::byte(rt)? {
        b'B' => bytes_line(rt, bytes),
        b'P' => payload_line(rt, bytes, tally),
        _ => None,
    }
}

// All lines, up to 2^32 - 1.
fn main(rt: HostRuntime) {
    let mut bytes = [0u8; 4096];
    let mut tally = Tally::new();
    replay::repeat(|| line(&rt, &mut bytes, &mut tally));
    rows::print_all(&rt, &tally);
}
