// Texts in parts: the lines of standard input, the words of a line.
use crate::stream;

// The parts of a text, each without the `end` behind it, to `take` one after another. Nothing comes behind the last `end`.
pub fn split<F: FnMut(&[u8])>(text: &[u8], end: u8, mut take: F)
    requires { F.IsAlwaysCallable take }
{
    for part in text.split_inclusive(|b| *b == end) {
        take(part.strip_suffix(&[end]).unwrap_or(part));
    }
}

// The lines of standard input, up to 65,536 bytes of them.
pub fn each<R: Input, F: FnMut(&[u8])>(rt: &R, line: F)
    requires { F.IsAlwaysCallable line }
{
    let mut text = [0u8; 65536];
    let n = stream::read_full(rt, &mut text);
    split(&text[..n], b'\n', line);
}
