// A file that a conference left, compared with a stored answer.
ghost use Rattle.std.specs.Prelude.{◌≤◌, length};

use files::Input;
use std::io::Print;

// The most bytes of an answer: a length of 20 digits, a blank and 16 digits.
const ROOM: usize = 37;

// As many reads as there can be.
const MOST: u32 = 4294967295;

// How many bytes of a file were read, and their CRC-32.
#[derive(Clone, Copy, Default)]
struct Sum {
    bytes: u64,
    sum: u32,
}

// A whole open file.
fn add_all(from: &Input) -> Sum {
    let mut chunk = [0u8; 65536];
    let mut s = Sum::default();
    for _ in 0..MOST {
        let n = from.read_full(&mut chunk);
        if n == 0 {
            break;
        }
        s.bytes = s.bytes.wrapping_add(n as u64);
        s.sum = crc32::more(s.sum, &chunk[..n]);
    }
    s
}

// Its length and its CRC-32 in the form of an answer; how many bytes they have.
fn put(s: Sum, answer: &mut [u8; ROOM]) -> usize
    ensures { result ≤ length answer.new }
{
    let mut digits = [0u8; 20];
    let n = io::decimal(s.bytes, &mut digits).min(20);
    let mut sum = [0u8; 16];
    let k = io::hex(s.sum as u64, 8, &mut sum).min(16);
    let a = print::put(&digits[0..n], 0, answer);
    let b = print::put(b" ", a, answer);
    print::put(&sum[0..k], b, answer)
}

// Prints whether an answer is the one stored, and which it is where it is another.
fn tell(rt: &HostRuntime, stored: &[u8], answer: &[u8]) {
    if stored == answer {
        let _ = rt.write_all(b"as stored\n");
        return;
    }
    let _ = rt.write_all(b"not as stored: ");
    let _ = rt.write_all(answer);
    let _ = rt.write_all(b"\n");
}

// Compares a file with what is stored of it.
fn compare(rt: &HostRuntime, name: &[u8], stored: &[u8]) {
    match files::open(rt, name) {
        Ok(file) => {
            let mut answer = [0u8; ROOM];
            let n = put(add_all(&Input::Named(file)), &mut answer);
            tell(rt, stored, &answer[0..n]);
        }
        Err(_) => tell(rt, stored, b"none"),
    }
}

// The same of a step's words: the name, and behind a blank the answer.
pub(crate) fn heard(rt: &HostRuntime, words: &[u8]) {
    if let Some(to) = words.iter().position(|b| *b == b' ') {
        compare(rt, &words[..to], &words[to + 1..]);
    }
}
