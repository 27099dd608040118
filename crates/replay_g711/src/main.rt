// Replays G.711 against stored answers: every byte and every sample of 16 bits of both laws, and calls that are refused. Standard input has lines of fixed sizes, a letter and words of
// four hexadecimal digits. T: a law; the sample of each byte; the byte that each of these samples is written as. Every other sample must be refused. C: a call, its law in two words;
// how many bytes and how many samples; the place of a sample that is no table value; the codes of reading and of writing. oracle/g711 writes it with another codec, some rows wrong on
// purpose. Prints how many values were compared and differ.
#![tactic(auto)]

ghost use Rattle.std.specs.Prelude.{◌≤◌};

mod rows;

use replay::tally::Tally;
use replay::{part, stream};
use rows::Row;

// The words of a line with the answers of a law: the law, samples, bytes.
const ANSWERS: usize = 513;

// The most bytes or samples of a call.
const MOST: usize = 300;

// What lent memory holds before a call.
const SAMPLE: i16 = 5;

const BYTE: u8 = 166;

// All bytes.
fn all_bytes() -> [u8; 256] {
    let mut bytes = [0u8; 256];
    for (b, byte) in bytes.iter_mut().enumerate() {
        *byte = b as u8;
    }
    bytes
}

// Compares the samples of all bytes, read in one call.
fn read_all(law: u32, answers: &[i16; ANSWERS], tally: &mut Tally) {
    let bytes = all_bytes();
    let mut samples = [SAMPLE; 256];
    let code = refusal::code(g711::read(law, &bytes, &mut samples));
    tally.count(Row::ReadCode as usize, code != 0);
    tally.words(Row::Read as usize, answers, 1, &samples);
}

// Compares the bytes of all these samples, written in one call.
fn write_all(law: u32, answers: &[i16; ANSWERS], tally: &mut Tally) {
    let samples: [i16; 256] = part::array(answers, 1);
    let mut bytes = [BYTE; 256];
    let code = refusal::code(g711::write(law, &samples, &mut bytes));
    tally.count(Row::WriteCode as usize, code != 0);
    let found = bytes.map(|byte| byte as i16);
    tally.words(Row::Write as usize, answers, 257, &found);
}

// What a sample is written as by the answers, the last where there are several; None where none has it. A stored 256, which is no byte, stands for none, too.
fn due(answers: &[i16; ANSWERS], z: i16) -> Option<u16> {
    let samples = &answers[1..257];
    let place = samples.iter().rposition(|x| *x == z)?;
    Some(part::number(&answers[257..], place)).filter(|byte| *byte != 256)
}

// Compares what one sample is written as, or that it is refused and nothing written.
fn write_one(law: u32, answers: &[i16; ANSWERS], z: i16, tally: &mut Tally) {
    let samples = [z];
    let mut byte = [BYTE];
    let code = refusal::code(g711::write(law, &samples, &mut byte));
    let byte = byte[0];
    match due(answers, z) {
        Some(due) => {
            tally.count(Row::Taken as usize, code != 0);
            tally.count(Row::One as usize, u16::from(byte) != due);
        }
        None => {
            tally.count(Row::Refused as usize, code != 17);
            tally.count(Row::Untouched as usize, byte != BYTE);
        }
    }
}

// Every sample of 16 bits.
fn write_each(law: u32, answers: &[i16; ANSWERS], tally: &mut Tally) {
    for n in 0..=u16::MAX {
        write_one(law, answers, n.cast_signed(), tally);
    }
}

fn answers_line<R: Input>(rt: &R, tally: &mut Tally) -> Option<()> {
    let answers: [i16; ANSWERS] = stream::words(rt)?;
    let law = part::number(&answers, 0) as u32;
    read_all(law, &answers, tally);
    write_all(law, &answers, tally);
    write_each(law, &answers, tally);
    Some(())
}

// Bytes of many values, one for each place.
fn leg() -> [u8; MOST] {
    let mut bytes = [0u8; MOST];
    for (k, byte) in bytes.iter_mut().enumerate() {
        *byte = ((7 * k + 3) % 256) as u8;
    }
    bytes
}

// A call that reads n bytes into m samples.
fn read_case(law: u32, n: usize, m: usize, code: u32, tally: &mut Tally)
    requires { (n ≤ 300) × (m ≤ 300) }
{
    let bytes = leg();
    let mut samples = [SAMPLE; MOST];
    let found = refusal::code(g711::read(law, &bytes[0..n], &mut samples[0..m]));
    tally.count(Row::Call as usize, found != code);
    if code != 0 {
        tally.count(Row::Kept as usize, samples != [SAMPLE; MOST]);
    }
}

// The samples of the leg, with one that is no table value of either law, 1, at a place where there is one.
fn leg_samples(law: u32, place: usize) -> [i16; MOST] {
    let bytes = leg();
    let mut samples = [0i16; MOST];
    let _ = g711::read(law, &bytes, &mut samples);
    if let Some(sample) = samples.get_mut(place) {
        *sample = 1;
    }
    samples
}

// A call that writes m samples into n bytes.
fn write_case(law: u32, n: usize, m: usize, place: usize, code: u32, tally: &mut Tally)
    requires { (n ≤ 300) × (m ≤ 300) }
{
    let samples = leg_samples(law, place);
    let mut bytes = [BYTE; MOST];
    let found = refusal::code(g711::write(law, &samples[0..m], &mut bytes[0..n]));
    tally.count(Row::Call as usize, found != code);
    if code != 0 {
        tally.count(Row::Kept as usize, bytes != [BYTE; MOST]);
    }
}

fn call_line<R: Input>(rt: &R, tally: &mut Tally) -> Option<()> {
    let line: [i16; 7] = stream::words(rt)?;
    let law = part::wide(&line, 0);
    let n = MOST.min(part::number(&line, 2) as usize);
    let m = MOST.min(part::number(&line, 3) as usize);
    let place = part::number(&line, 4) as usize;
    read_case(law, n, m, part::number(&line, 5) as u32, tally);
    write_case(law, n, m, place, part::number(&line, 6) as u32, tally);
    Some(())
}

// The next line. False at the end.
fn line<R: Input>(rt: &R, tally: &mut Tally) -> Option<()> {
    match stream::byte(rt)? {
        b'T' => answers_line(rt, tally),
        b'C' => call_line(rt, tally),
        _ => None,
    }
}

// All lines, up to 2^32 - 1.
fn main(rt: HostRuntime) {
    let mut tally = Tally::new();
    replay::repeat(|| line(&rt, &mut tally));
    rows::print_all(&rt, &tally);
}
