// Equation (40) of G.729 clause 3.7.1 without saturation, where taps and words are small enough that no partial sum leaves 31 bits.
// The twenty taps stand in an array of 32 with zeros around them: only for a power of two does the compiler make all products in pairs
// (`pmaddwd`), and 32 then take fewer instructions than twenty.
ghost use Rattle.std.specs.Prelude.{◌≡◌, ◌+◌, ◌-◌, ◌≤◌, ◌<◌, ◌*ℤ◌};
ghost use Rattle.std.specs.Int.Signed.{mag};
ghost use Rattle.laws.specs.Loops.{run};
ghost use Rattle.block.specs.Places.{exc_length};
ghost use Rattle.adaptive.specs.Fast.{tap, taps, size_sum, dot, filtered, Small, Sums, Padded, Room, NoSaturation, Continues};

use block::places::EXC_LENGTH;

// How many of the zeros stand in front of the taps, so that all 32 words read lie within the buffer.
pub(crate) fn offset(k: usize) -> usize
    requires { (10 ≤ k) × (k ≤ 144) }
    ensures { (result ≤ 12) × ((22 ≤ k + result) × (k + result ≤ 144)) }
{
    if k < 22 { 12 } else { 0 }
}

// Where tap j of the phase stands in the filter; tap 9 weighs the word in the middle.
fn tap(phase: usize, j: usize) -> usize
    requires { (phase ≤ 2) × (j < 20) }
    ensures { (result ≡ tap phase j) × (result < 31) }
{
    if j < 10 {
        return phase + 3 * (9 - j);
    }
    3 - phase + 3 * (j - 10)
}

// The twenty taps of the phase in the order of the words, oldest first, from `offset` on.
pub(crate) fn taps(b30: &[i16; 31], phase: usize, offset: usize) -> [i16; 32]
    requires { (phase ≤ 2) × (offset ≤ 12) }
    ensures { result ≡ taps b30.now phase offset }
{
    let mut c = [0i16; 32];
    for j in 0..20 {
        c[offset + j] = b30[tap(phase, j)];
    }
    c
}

// x, or its complement -1 - x where it is negative. In 16 bits, not by the one of `basic_op`, so that the compiler takes eight words at once.
fn magnitude(x: i16) -> u16
    ensures { result ≡ mag x }
{
    (if x < 0 { !x } else { x }).cast_unsigned()
}

// At least the sum of the taps without their signs.
fn size_sum(c: &[i16; 32]) -> u32
    ensures { result ≡ size_sum c.now 32 }
{
    let mut s = 0u32;
    for x in c {
        s += u32::from(magnitude(*x)) + 1;
    }
    s
}

// The greatest magnitude of the 59 words from `from` on, which are all that a subframe reads.
fn greatest(exc: &[i16; EXC_LENGTH], from: usize) -> u16
    requires { from + 59 ≤ exc_length }
    ensures { Small exc.now from 59 (result + 1) }
{
    let mut m = 0u16;
    for j in 0..59 {
        m = m.max(magnitude(exc[from + j]));
    }
    m
}

fn times(a: i16, b: i16) -> i32
    ensures { result ≡ a *ℤ b }
{
    a as i32 * b as i32
}

// The sum of the 32 products, the oldest word at `from`; a word that meets a zero may have any size.
fn dot(c: &[i16; 32], exc: &[i16; EXC_LENGTH], from: usize) -> i32
    requires { (from + 32 ≤ exc_length) × Sums c.now exc.now from }
    ensures { result ≡ dot c.now exc.now from 32 }
{
    let mut s = 0i32;
    for j in 0..32 {
        s += times(exc[from + j], c[j]);
    }
    s
}

// The word whose oldest term is at `from`, by the taps from `offset` on, rounded; beyond 16 bits it is not limited.
fn word(c: &[i16; 32], exc: &[i16; EXC_LENGTH], from: usize, offset: usize) -> i32
    requires { (offset ≤ 12) × ((offset ≤ from) × ((from + 32 ≤ exc_length + offset) × ((size_sum c.now 32 ≤ 65534) × (Padded c.now offset × Small exc.now from 20 16384)))) }
    ensures { result ≡ filtered c.now offset (from + 9) exc.now }
{
    basic_op::sar32(dot(c, exc, from - offset) + 16384, 15)
}

// Words `start` to `end` of the subframe at `from`, up to the first that is not small; where it stopped.
fn words(
    c: &[i16; 32],
    exc: &mut [i16; EXC_LENGTH],
    from: usize,
    k: usize,
    offset: usize,
    start: usize,
    end: usize,
) -> usize
    requires { NoSaturation c.now offset from k × ((start ≤ end) × ((end ≤ 40) × Small exc.old (from - k - 9) 59 16384)) }
    ensures { (result ≤ end) × (Small exc.new (from - k - 9) 59 16384 × Continues (λ n e. filtered c.now offset (from + n - k) e) from start result exc.old exc.new) }
{
    for n in start..end {
        let w = word(c, exc, from + n - k - 9, offset);
        if w > 16383 || w < -16384 {
            return n;
        }
        exc[from + n] = w as i16;
    }
    end
}

// The first words of a subframe; none where a tap or a word is too large. There are two calls of `words` so that the compiler keeps it a
// function: inlined, its taps become scalars, and no product is made by a vector instruction.
pub(crate) fn first_words(
    c: &[i16; 32],
    exc: &mut [i16; EXC_LENGTH],
    from: usize,
    k: usize,
    offset: usize,
) -> usize
    requires { Padded c.now offset × Room offset from k }
    ensures { (result ≤ 40) × (exc.new ≡ run (λ n e. filtered c.now offset (from + n - k) e) from result exc.old) }
{
    if size_sum(c) > 65534 {
        return 0;
    }
    if greatest(exc, from - k - 9) > 16383 {
        return 0;
    }
    let half = words(c, exc, from, k, offset, 0, 20);
    if half < 20 {
        return half;
    }
    words(c, exc, from, k, offset, 20, 40)
}
