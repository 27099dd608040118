// The standard input and output of a replay program: the lines of a stored list, and the counts. No contract can say what is read or written.
// A failed read counts as the end of the input, and a failed write is passed over.
ghost use Rattle.std.specs.Prelude.{◌≤◌, length};

use crate::hex;
use crate::tally::Tally;
use std::io::Read;

// As many words as are read at a time.
const CHUNK: usize = 256;

// The bytes of one read; 0 at the end of the input. Inlined, and so is `read_full`, since a reader on standard input sets 8 KiB aside for lines: of that nothing is left but in a loop of reads.
#[inline(always)]
fn read_some<I: Read>(input: &mut I, text: &mut [u8]) -> usize
    ensures { result ≤ length text.new }
{
    input.read(text).unwrap_or(0)
}

// Reads until `text` is full or the input ends, and gives how many bytes it read. Counted by hand: a read gives as many bytes as it likes.
#[inline(always)]
pub fn read_full<R: Input>(rt: &R, text: &mut [u8]) -> usize
    ensures { result ≤ length text.new }
{
    let mut input = rt.reader();
    let mut done = 0;
    while done < text.len() {
        let n = read_some(&mut input, &mut text[done..]);
        if n == 0 {
            break;
        }
        done += n;
    }
    done
}

// The next byte: the letter of a line, or the end of one. None at the end of the input.
pub fn byte<R: Input>(rt: &R) -> Option<u8> {
    let mut byte = [0u8; 1];
    if read_full(rt, &mut byte) == 1 {
        Some(byte[0])
    } else {
        None
    }
}

// Fills `words` from the next four digits each, and takes the end of their line with the last of them: one read for up to 256 words, since each costs more than its bytes. None where
// the input ends before.
pub fn read_words<R: Input>(rt: &R, words: &mut [i16]) -> Option<()> {
    let mut text = [0u8; 4 * CHUNK + 1];
    let mut left = words.len();
    for part in words.chunks_mut(CHUNK) {
        left = left.saturating_sub(part.len());
        let digits = 4 * part.len();
        let all = digits + usize::from(left == 0);
        if read_full(rt, &mut text[..all]) < all {
            return None;
        }
        hex::words(&text[..digits], part);
    }
    Some(())
}

// The words of a line without its letter. None where the input ends before.
pub fn words<R: Input, const N: usize>(rt: &R) -> Option<[i16; N]> {
    let mut words = [0i16; N];
    read_words(rt, &mut words)?;
    Some(words)
}

// A row of the tally behind its name.
pub fn print_row<R: Print>(rt: &R, name: &str, tally: &Tally, row: usize) {
    let _ = println!(rt;
        "{name} compared {} differ {}",
        tally.compared(row),
        tally.differ(row)
    );
}
