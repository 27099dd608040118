// The synthesis filter 1/A(z): G.729 clause 4.1.6, equation (77). The caller lends the frame's 234 words of
// excitation (154 of the past, then 80) and its 90 words of speech (the last ten samples before it, then 80).
#![tactic(auto)]

ghost use Rattle.std.specs.Prelude.{◌≡◌, ◌-◌, ◌≤◌, ◌<◌, IfSome, false, List, ℤ, nat_abs, ◌-ℤ◌, ◌*ℤ◌};
ghost use Rattle.std.specs.Int.Signed.{mag};
ghost use Rattle.laws.specs.Lists.{at};
ghost use Rattle.block.specs.Places.{speech_length};
ghost use Rattle.synth_filter.specs.Filter.{synth_sample, synth_overflow, synthesis, saturates};
ghost use Rattle.synth_filter.specs.Fast.{size, size_sum, both, pairs, next_sum, Past, Halves, Rounded, Sampled, Reached};

use block::places;
use block::places::{EXC_LENGTH, SPEECH_LENGTH};

// A sample, and whether an operation on the way to it saturated: such a sample stands too, so this is no Option.
#[derive(Clone, Copy)]
struct Sample {
    word: i16,
    overflow: bool,
}

// One sample of 1/A(z), equation (77): x is the excitation, and the past samples stand before place n of y.
fn synth_sample(a: &[i16; 11], x: i16, y: &[i16; SPEECH_LENGTH], n: usize) -> Sample
    requires n_le_speech_length { n ≤ speech_length }
    requires le_n { 10 ≤ n }
    ensures word_value { result.word ≡ synth_sample a.now x y.now n }
    ensures overflow_value { result.overflow ≡ synth_overflow a.now x y.now n }
{
    let a0 = a[0];
    let mut l = basic_op::l_mult(x, a0);
    let mut overflow = basic_op::l_mult_overflow(x, a0);
    for i in 0..10 {
        let c = a[i + 1];
        let past = y[n - (i + 1)];
        overflow = overflow | basic_op::l_msu_overflow(l, c, past);
        l = basic_op::l_msu(l, c, past);
    }
    let s = basic_op::l_shl(l, 3);
    let end = basic_op::l_shl3_overflow(l) | basic_op::round_overflow(s);
    Sample {
        word: basic_op::round(s),
        overflow: overflow | end,
    }
}

// The size of a coefficient; for -32768, whose products may saturate, 61440, which is above the limit.
fn size(c: i16) -> u32
    ensures value { result ≡ size c }
    ensures upper_bound { result ≤ 61440 }
{
    if c < -32767 {
        61440
    } else if c < 0 {
        (0 - c as i32) as u32
    } else {
        c as u32
    }
}

// The sizes of all coefficients together.
pub fn size_sum(a: &[i16; 11]) -> u32
    ensures { result ≡ size_sum a.now 10 }
{
    let mut w = size(a[0]);
    for i in 0..10 {
        w = w + size(a[i + 1]);
    }
    w
}

pub fn product(a: i16, b: i16) -> i64
    ensures value { result ≡ a *ℤ b }
    ensures result_bound { mag result < 2147483648 }
{
    a as i64 * b as i64
}

// Two numbers in one: p in the low half, q in the high one.
fn both(p: i16, q: i16) -> i64
    ensures value { result ≡ both p q }
    ensures result_bound { nat_abs result ≤ 263878495760383 }
{
    p as i64 + q as i64 * 4294967296
}

// Both halves times c. b is at most 61439 (2^32 + 1) in size, so the product fits 64 bits.
fn both_times(b: i64, c: i16) -> i64
    requires { nat_abs b ≤ 263878495760383 }
    ensures { result ≡ b *ℤ c }
{
    b * c as i64
}

// For each k the coefficients by which sample n - k enters sample n (low half) and sample n + 1 (high half).
fn pairs(a: &[i16; 11]) -> [i64; 10]
    ensures { result ≡ pairs a.now }
{
    let mut b: [i64; 10] = [0; 10];
    for k in 0..10 {
        b[k] = both(a[k], a[k + 1]);
    }
    b
}

// The sums of samples n and n + 1 in the halves of one number, still without their products with samples n - 1 and n.
fn both_sums(
    a: &[i16; 11],
    b: &[i64; 10],
    x: i16,
    next: i16,
    y: &[i16; SPEECH_LENGTH],
    n: usize,
) -> i64
    requires b_value { b.now ≡ pairs a.now }
    requires a_bound { size_sum a.now 10 ≤ 61439 }
    requires n_le_speech_length { n ≤ speech_length }
    requires le_n { 10 ≤ n }
    ensures halves { Halves a.now x next y.now n 1 result }
    ensures past { Past y.now n 1 }
{
    let mut l = both_times(both(x, next), a[0]) - product(a[10], y[n - 10]);
    for i in 0..8 {
        let k = 9 - i;
        l = l - both_times(b[k], y[n - k]);
    }
    l
}

// A whole sum rounded to a sample; none where it is out of range.
fn rounded(l: i64) -> Option<i16>
    ensures { IfSome result (λ w. Rounded l w) }
{
    if (l < 134215680) & (l > -134217729) {
        return Some(basic_op::sar64(l + 2048, 12) as i16);
    }
    None
}

// Sample n, and the sum of sample n + 1 without its product with sample n.
#[derive(Clone, Copy)]
struct First {
    word: i16,
    sum: i64,
}

// The first of two samples, none where its sum is out of range, for coefficients so small that no operation on the way saturates if the sum ends in range. The newest past sample, which
// both sums wait for, comes last, and not through memory.
fn first_of_two(
    a: &[i16; 11],
    b: &[i64; 10],
    x: i16,
    next: i16,
    newest: i16,
    y: &[i16; SPEECH_LENGTH],
    n: usize,
) -> Option<First>
    requires b_value { b.now ≡ pairs a.now }
    requires a_bound { size_sum a.now 10 ≤ 61439 }
    requires newest_value { newest ≡ at y.now (n - 1) }
    requires n_le_speech_length { n ≤ speech_length }
    requires le_n { 10 ≤ n }
    ensures sampled { IfSome result (λ s. Sampled a.now x y.now n s.word) }
    ensures sum_value { IfSome result (λ s. s.sum ≡ next_sum a.now next y.now n) }
    ensures sum_bound { IfSome result (λ s. mag s.sum < 8589934592) }
    ensures past { Past y.now n 0 }
{
    let sums = both_sums(a, b, x, next, y, n);
    let high = basic_op::sar64(sums + 2147483648, 32);
    let low = sums - high * 4294967296;
    let sum = high - product(a[2], newest);
    let word = rounded(low - product(a[1], newest))?;
    Some(First { word, sum })
}

// The second: its sum waits for the first alone.
fn second_of_two(a: &[i16; 11], sum: i64, first: i16) -> Option<i16>
    requires { mag sum < 8589934592 }
    ensures { IfSome result (λ w. Rounded (sum -ℤ at a.now 1 *ℤ first) w) }
{
    rounded(sum - product(a[1], first))
}

// Writes the subframe's samples by their whole sums, two a turn, up to the first that may saturate, and says how many. The plain form has a loop
// of its own, since with both in one the compiler runs out of registers.
fn whole_samples(
    a: &[i16; 11],
    exc: &[i16; EXC_LENGTH],
    second: bool,
    speech: &mut [i16; SPEECH_LENGTH],
) -> usize
    ensures upper_bound { result ≤ 40 }
    ensures reached { Reached second a.now exc.now speech.old speech.new false result }
{
    let from = places::exc_start(second);
    let start = places::speech_start(second);
    if size_sum(a) > 61439 {
        return 0;
    }
    let b = pairs(a);
    let mut newest = speech[start - 1];
    for i in 0..20 {
        let n = i + i;
        let k = start + n;
        let m = from + n;
        let Some(s) = first_of_two(a, &b, exc[m], exc[m + 1], newest, speech, k) else {
            return n;
        };
        speech[k] = s.word;
        let Some(next) = second_of_two(a, s.sum, speech[k]) else {
            return n + 1;
        };
        speech[k + 1] = next;
        newest = speech[k + 1];
    }
    40
}

// Writes the subframe's samples from number `done` on, operation by operation, and says whether one of them saturated. The contract speaks of
// any speech y of which the first `done` samples made the one lent.
fn plain_samples(
    a: &[i16; 11],
    exc: &[i16; EXC_LENGTH],
    second: bool,
    speech: &mut [i16; SPEECH_LENGTH],
    done: usize,
) -> bool
    requires { done ≤ 40 }
    ensures { (y : List ℤ) → Reached second a.now exc.now y speech.old false done → Reached second a.now exc.now y speech.new result 40 }
{
    let from = places::exc_start(second);
    let start = places::speech_start(second);
    let mut saturated = false;
    for n in done..40 {
        let s = synth_sample(a, exc[from + n], speech, start + n);
        speech[start + n] = s.word;
        saturated = saturated | s.overflow;
    }
    saturated
}

// Equation (77): writes the subframe's 40 samples, and says whether an operation saturated.
pub fn synthesize(
    a: &[i16; 11],
    exc: &[i16; EXC_LENGTH],
    second: bool,
    speech: &mut [i16; SPEECH_LENGTH],
) -> bool
    ensures value { result ≡ saturates second a.now exc.now speech.old }
    ensures speech_after { speech.new ≡ synthesis second a.now exc.now speech.old }
{
    let done = whole_samples(a, exc, second, speech);
    plain_samples(a, exc, second, speech, done)
}
