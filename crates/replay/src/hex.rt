// Hexadecimal digits to numbers of 32 bits, and these to signed ones: two's complement.
ghost use Rattle.std.specs.Prelude.{◌≡◌, ◌+◌, length, get_or};
ghost use Rattle.std.specs.Int.{w32};
ghost use Rattle.std.proofs.Common.{to_z};
ghost use Rattle.laws.specs.Lists.{tab};
ghost use Rattle.replay.specs.Replay.{number, word, word_at};

// Byte `n` behind place `at`; 0 past the end.
fn byte(text: &[u8], at: usize, n: usize) -> u8
    ensures { result ≡ get_or text.now (at + n) 0 }
{
    if at < text.len() && n < text.len() - at {
        text[at + n]
    } else {
        0
    }
}

// The number of the `count` digits at `from`; bytes past the end count as 0.
pub fn field(text: &[u8], from: usize, count: usize) -> u32
    ensures { result ≡ number text.now from count }
{
    let mut v: u32 = 0;
    for i in 0..count {
        v = v % 268435456 * 16 + text::value(byte(text, from, i)) as u32;
    }
    v
}

// The signed number whose 32 bits are x.
pub fn signed(x: u32) -> i32
    ensures { result ≡ to_z w32 x }
{
    x.cast_signed()
}

// Its 16 lower bits, as a signed number.
pub fn word(x: u32) -> i16
    ensures { result ≡ word x }
{
    basic_op::extract_l(signed(x))
}

// Word n of a text, four digits each; 0 past its end.
fn word_at(text: &[u8], n: usize) -> i16
    ensures { result ≡ word_at text.now n }
{
    if n < text.len() / 4 {
        return word(field(text, 4 * n, 4));
    }
    0
}

// Fills `words` from a text.
pub fn words(text: &[u8], words: &mut [i16])
    ensures { words.new ≡ tab (length words.old) (word_at text.now) }
{
    for (n, word) in words.iter_mut().enumerate() {
        *word = word_at(text, n);
    }
}
