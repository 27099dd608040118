// Blocks of words (01, "The table block and the state block"): read at any place, where a word past the end is 0, and written.
// Every function takes blocks of any length and any place. `places` has the lengths and places of a frame's buffers.
#![tactic(auto)]

ghost use Rattle.std.specs.Prelude.{◌≡◌, ◌∷◌, [], ◌+◌, ◌≤◌, length};
ghost use Rattle.laws.specs.Lists.{at};
ghost use Rattle.block.specs.Block.{part, put, copy};

pub mod places;

// ---- reading

// Word n of a block.
pub fn word(b: &[i16], n: usize) -> i16
    ensures { result ≡ at b.now n }
{
    b.get(n).copied().unwrap_or(0)
}

// The words from n on, as many as out has, where the block has fewer.
fn short(b: &[i16], n: usize, out: &mut [i16])
    requires inside { n ≤ length b.now }
    requires fewer { length b.now ≤ n + length out.old }
    ensures { out.new ≡ part b.now n (length out.old) }
{
    let have = b.len() - n;
    out.fill(0);
    out[..have].copy_from_slice(&b[n..]);
}

// The words from n on, as many as out has. The length is tested once, so that a part that the block has whole is copied without tests.
pub fn words(b: &[i16], n: usize, out: &mut [i16])
    ensures { out.new ≡ part b.now n (length out.old) }
{
    let from = n.min(b.len());
    if out.len() <= b.len() - from {
        out.copy_from_slice(&b[from..from + out.len()]);
    } else {
        short(b, from, out);
    }
}

// The N words from n on.
pub fn words_at<const N: usize>(b: &[i16], n: usize) -> [i16; N]
    ensures { result ≡ part b.now n N }
{
    let mut out = [0i16; N];
    words(b, n, &mut out);
    out
}

// ---- writing

// The words of v written from place n on; a block that ends before them stays as it was.
pub fn put(b: &mut [i16], n: usize, v: &[i16])
    ensures { b.new ≡ put b.old n v.now }
{
    if n <= b.len() && v.len() <= b.len() - n {
        b[n..n + v.len()].copy_from_slice(v);
    }
}

// One word written at place n.
pub fn put_word(b: &mut [i16], n: usize, v: i16)
    ensures { b.new ≡ put b.old n (v ∷ []) }
{
    if n < b.len() {
        b[n] = v;
    }
}

// A block becomes v; memory of another length stays as it was.
pub fn copy(b: &mut [i16], v: &[i16])
    ensures { b.new ≡ copy b.old v.now }
{
    if b.len() == v.len() {
        b.copy_from_slice(v);
    }
}
