// A line of an arrivals text, without its line feed: a frame number, a space, a tab or a comma, and a time in milliseconds. Both are decimal numbers of 32 bits; leading zeros are allowed.
#![tactic(auto)]

ghost use Rattle.std.specs.Prelude.{◌≡◌};
ghost use Rattle.std.specs.List.{position};
ghost use Rattle.arrival_line.specs.ArrivalLine.{number, separates, read};

// The greatest number of 32 bits.
const MOST: u64 = 4294967295;

// What a line tells: the number of a frame, and when it arrived.
#[derive(Clone, Copy)]
pub struct Arrival {
    pub number: u32,
    pub time: u32,
}

// The number of a text of one or more digits, or nothing where the text is none or has more than 32 bits. It is refused at the digit that makes it too large, so no length of digits wraps.
pub fn number(text: &[u8]) -> Option<u32>
    ensures { result ≡ number text.now }
{
    if text.is_empty() {
        return None;
    }
    let mut n = 0u64;
    for b in text {
        if !b.is_ascii_digit() {
            return None;
        }
        n = 10 * n + (*b - b'0') as u64;
        if MOST < n {
            return None;
        }
    }
    Some(n as u32)
}

// Whether a byte stands between the two numbers: a space, a tab or a comma.
fn separates(b: u8) -> bool
    ensures { result ≡ separates b }
{
    (b == b' ') | (b == b'\t') | (b == b',')
}

// Where the first such byte is.
fn separator(line: &[u8]) -> Option<usize>
    ensures { result ≡ position separates line.now }
{
    line.iter().position(|b| separates(*b))
}

// What a line tells, or nothing where the text is no line.
pub fn read(line: &[u8]) -> Option<Arrival>
    ensures { result ≡ read line.now }
{
    let n = separator(line)?;
    let frame = number(&line[..n])?;
    let time = number(&line[n + 1..])?;
    Some(Arrival {
        number: frame,
        time,
    })
}
