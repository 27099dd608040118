// Numbers in a file, low byte first: words in two's complement (01, "The call text and the program": the bytes of the tables), and unsigned
// numbers of up to eight bytes, one or several behind another.
#![tactic(auto)]

ghost use Rattle.std.specs.Prelude.{◌≡◌, [], ◌∷◌, ◌*◌, ◌/◌, ◌%◌, ◌^◌, ◌<◌, ◌≤◌, min, length, take};
ghost use Rattle.basic_op.specs.Ops.{low16};
ghost use Rattle.words.specs.Words.{word, from_bytes, to_bytes, number, number_bytes, read_numbers, put_numbers};

// The lesser of two lengths.
pub fn lesser(a: usize, b: usize) -> usize
    ensures { (result ≡ min a b) × (result ≤ a) × (result ≤ b) }
{
    a.min(b)
}

// The word of two bytes.
fn word(low: u8, high: u8) -> i16
    ensures { result ≡ word low high }
{
    i16::from_le_bytes([low, high])
}

// The two bytes of a word.
fn pair(w: i16) -> [u8; 2]
    ensures { result ≡ low16 w % 256 ∷ low16 w / 256 ∷ [] }
{
    w.to_le_bytes()
}

// The words of `bytes` to the front of `out`, as many whole words as both have; what lies behind them stays as it was.
pub fn from_bytes(bytes: &[u8], out: &mut [i16])
    ensures { out.new ≡ from_bytes bytes.now out.old }
{
    let n = out.len().min(bytes.len() / 2);
    for i in 0..n {
        out[i] = word(bytes[2 * i], bytes[2 * i + 1]);
    }
}

// The bytes of `words` to the front of `out`, as many whole words as both have; what lies behind them stays as it was.
pub fn to_bytes(words: &[i16], out: &mut [u8])
    ensures { out.new ≡ to_bytes words.now out.old }
{
    let n = words.len().min(out.len() / 2);
    for i in 0..n {
        out[2 * i..2 * i + 2].copy_from_slice(&pair(words[i]));
    }
}

// The number of the first eight bytes, or of all where there are fewer.
pub fn number(bytes: &[u8]) -> u64
    ensures { (result ≡ number (take 8 bytes.now)) × (result < 2 ^ (8 * min 8 (length bytes.now))) }
{
    let mut n = 0u64;
    for i in (0..bytes.len().min(8)).rev() {
        n = 256 * n + bytes[i] as u64;
    }
    n
}

// The lowest bytes of `n`, as many as `out` has.
pub fn put_number(n: u64, out: &mut [u8])
    ensures { out.new ≡ number_bytes (length out.old) n }
{
    let mut rest = n;
    for b in out.iter_mut() {
        *b = (rest % 256) as u8;
        rest /= 256;
    }
}

// The numbers of these widths, one behind another at the front of `bytes`, to the front of `out`, as many as both have; what lies behind them stays as it was.
pub fn numbers(widths: &[usize], bytes: &[u8], out: &mut [u64])
    ensures { out.new ≡ read_numbers widths.now bytes.now out.old }
{
    let mut at = 0;
    for i in 0..widths.len().min(out.len()) {
        let end = at + widths[i].min(bytes.len() - at);
        out[i] = number(&bytes[at..end]);
        at = end;
    }
}

// The numbers `values`, each in as many bytes as its width says, one behind another at the front of `out`, while there is room; what lies behind them stays as it was.
pub fn put_numbers(widths: &[usize], values: &[u64], out: &mut [u8])
    ensures { out.new ≡ put_numbers widths.now values.now out.old }
{
    let mut at = 0;
    for i in 0..widths.len().min(values.len()) {
        let end = at + widths[i].min(out.len() - at);
        put_number(values[i], &mut out[at..end]);
        at = end;
    }
}
