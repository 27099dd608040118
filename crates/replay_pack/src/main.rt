// Replays the writing of frames from fields against a plain bit loop's answers. Standard input has lines of one size, W and 33 words of four hexadecimal
// digits: the call (0 with fifteen fields, 1 with fourteen), how many fields and how many bytes are lent, sixteen numbers, the byte that all lent memory
// holds, the code that is due and the twelve bytes that are due then. oracle/pack writes it, some rows wrong on purpose. Prints how many values were
// compared and differ; what is due of the first call is read back, too.
#![tactic(auto)]

mod rows;

use replay::tally::Tally;
use replay::{hex, part, stream};
use rows::Row;

// The sixteen numbers of a line.
fn numbers(line: &[i16]) -> [u16; 16] {
    let mut out = [0u16; 16];
    for (n, out) in out.iter_mut().enumerate() {
        *out = part::number(line, 3 + n);
    }
    out
}

// The call of a line, with as much of the fields and of the bytes as it says.
fn call(line: &[i16], fields: &[u16], bytes: &mut [u8]) -> u32 {
    let n = fields.len().min(part::number(line, 1) as usize);
    let m = bytes.len().min(part::number(line, 2) as usize);
    if part::number(line, 0) == 0 {
        return refusal::code(pack::write_fields(&fields[0..n], &mut bytes[0..m]));
    }
    refusal::code(pack::write_fields_parity(&fields[0..n], &mut bytes[0..m]))
}

// Reads what is due of a call with fifteen fields that isn't refused.
fn read_back(line: &[i16], tally: &mut Tally) {
    if part::number(line, 0) == 0 && part::number(line, 20) == 0 {
        let due: [i16; 11] = part::array(line, 20);
        let mut found = [0u16; 15];
        let _ = bitstream::fields(&part::payload(&due), &mut found);
        let found = found.map(|x| x.cast_signed());
        tally.words(Row::ReadBack as usize, line, 3, &found);
    }
}

// The rows of a line's code and bytes.
fn rows_of(line: &[i16]) -> (Row, Row) {
    if part::number(line, 0) == 0 {
        (Row::Fifteen, Row::FifteenBytes)
    } else {
        (Row::Fourteen, Row::FourteenBytes)
    }
}

// One line.
fn replay(line: &[i16], tally: &mut Tally) {
    let fields = numbers(line);
    let lent = (part::number(line, 19) % 256) as u8;
    let mut bytes = [lent; 12];
    let code = call(line, &fields, &mut bytes);
    let (codes, all_bytes) = rows_of(line);
    tally.count(Row::Lines as usize, false);
    tally.count(codes as usize, part::number(line, 20) as u32 != code);
    let found = bytes.map(|x| x as i16);
    tally.words(all_bytes as usize, line, 21, &found);
    read_back(line, tally);
}

// The next line, its letter with the words at one read, since all lines are of one size. None at the end.
fn line<R: Input>(rt: &R, tally: &mut Tally) -> Option<()> {
    let mut text = [0u8; 134];
    if stream::read_full(rt, &mut text) < text.len() {
        return None;
    }
    let mut line = [0i16; 33];
    hex::words(&text[1..133], &mut line);
    replay(&line, tally);
    Some(())
}

// All lines, up to 2^32 - 1.
fn main(rt: HostRuntime) {
    let mut tally = Tally::new();
    replay::repeat(|| line(&rt, &mut tally));
    rows::print_all(&rt, &tally);
}
