// The basic operators of ITU-T G.191 (G.729 clause 5.2, Table 11) and the extended ones of oper_32b (Table 15) that the voice path calls.
// Each contract is an equation with a definition of specs/Ops.antt or specs/Oper32b.antt, for every input. No operator keeps a flag:
// whether one saturates is asked of a function of its own, which synthesis alone calls.
#![tactic(auto)]

ghost use Rattle.std.specs.Prelude.{◌≡◌, ◌^◌, ◌<◌, ◌≤◌, pos, ◌*ℤ◌};
ghost use Rattle.std.specs.Int.Signed.{shr_z, mag};
ghost use Rattle.tables.specs.Layout.{log2};
ghost use Rattle.basic_op.specs.Ops.{sat16, sat32, add, sub, l_mult, l_add, l_sub, l_mac, l_msu, mult, extract_h, extract_l, round, l_deposit_h, shl, l_shl, l_shr, l_shr_r, norm_l, low16, overflow32, l_mult_overflow, l_msu_overflow, round_overflow, l_shl3_overflow};
ghost use Rattle.basic_op.specs.Oper32b.{split_high_low, join_high_low, multiply_split_by_16, interpolate_q15, log_fraction, base2_log, base2_power};

use tables::formula;

// ---- saturation

// x, or the nearer end of 16 bits.
pub fn sat16(x: i32) -> i16
    ensures { result ≡ sat16 x }
{
    x.clamp(-32768, 32767) as i16
}

// x, or the nearer end of 32 bits.
pub fn sat32(x: i64) -> i32
    ensures { result ≡ sat32 x }
{
    x.clamp(-2147483648, 2147483647) as i32
}

// ---- sums and products
// By a clamp of the wider sum, not std's `saturating_add` and `saturating_sub`: of those LLVM makes ten instructions, of this five.

// 16-bit addition with saturation.
pub fn add(a: i16, b: i16) -> i16
    ensures { result ≡ add a b }
{
    sat16(a as i32 + b as i32)
}

// 16-bit subtraction with saturation.
pub fn sub(a: i16, b: i16) -> i16
    ensures { result ≡ sub a b }
{
    sat16(a as i32 - b as i32)
}

// L_mult: 2ab in 32 bits; only -32768 by itself saturates.
pub fn l_mult(a: i16, b: i16) -> i32
    ensures { result ≡ l_mult a b }
{
    sat32(2 * (a as i64 * b as i64))
}

// L_add: 32-bit addition with saturation.
pub fn l_add(a: i32, b: i32) -> i32
    ensures { result ≡ l_add a b }
{
    sat32(a as i64 + b as i64)
}

// L_sub: 32-bit subtraction with saturation.
pub fn l_sub(a: i32, b: i32) -> i32
    ensures { result ≡ l_sub a b }
{
    sat32(a as i64 - b as i64)
}

// L_mac: the product saturates first, then the sum.
pub fn l_mac(acc: i32, a: i16, b: i16) -> i32
    ensures { result ≡ l_mac acc a b }
{
    l_add(acc, l_mult(a, b))
}

// L_msu: the product saturates first, then the difference.
pub fn l_msu(acc: i32, a: i16, b: i16) -> i32
    ensures { result ≡ l_msu acc a b }
{
    l_sub(acc, l_mult(a, b))
}

// The product in Q15, rounded down; -32768 by itself saturates.
pub fn mult(a: i16, b: i16) -> i16
    ensures { result ≡ mult a b }
{
    sat16(sar32(a as i32 * b as i32, 15))
}

// The upper 16 bits.
pub fn extract_h(x: i32) -> i16
    ensures { result ≡ extract_h x }
{
    sar32(x, 16) as i16
}

// The upper 16 bits, rounded: the sum with half a step saturates.
pub fn round(x: i32) -> i16
    ensures { result ≡ round x }
{
    extract_h(l_add(x, 32768))
}

// The lower 16 bits, read as a signed number.
pub fn extract_l(x: i32) -> i16
    ensures { result ≡ extract_l x }
{
    ((x & 65535) as u16).cast_signed()
}

// a in the upper 16 bits.
pub fn l_deposit_h(a: i16) -> i32
    ensures { result ≡ l_deposit_h a }
{
    a as i32 * 65536
}

// ---- shifts

// Arithmetic right shifts at three widths: the floor division by 2 ^ n, for every n. std has the shift by type, and a trait over three types would
// be longer than these.
pub fn sar16(a: i16, n: u32) -> i16
    ensures { result ≡ shr_z a (2 ^ n) }
{
    a.unbounded_shr(n)
}

pub fn sar32(x: i32, n: u32) -> i32
    ensures { result ≡ shr_z x (2 ^ n) }
{
    x.unbounded_shr(n)
}

pub fn sar64(x: i64, n: u32) -> i64
    ensures { result ≡ shr_z x (2 ^ n) }
{
    x.unbounded_shr(n)
}

// Left shifts with saturation, for every n: past the width a number that is not 0 is beyond the range. Two, as G.191 has two operators: one over both
// widths would need a trait with the limits, the wider product and the saturation of each.
fn shl_by(a: i16, n: u32) -> i16
    ensures { result ≡ sat16 (a *ℤ pos (2 ^ n)) }
{
    sat16(a as i32 * (1 << n.min(16)))
}

fn l_shl_by(x: i32, n: u32) -> i32
    ensures { result ≡ sat32 (x *ℤ pos (2 ^ n)) }
{
    sat32(x as i64 * (1 << n.min(32)))
}

// Left by n with saturation, or right where n is negative.
pub fn shl(a: i16, n: i16) -> i16
    ensures { result ≡ shl a n }
{
    let count = u32::from(n.unsigned_abs());
    if n < 0 {
        sar16(a, count)
    } else {
        shl_by(a, count)
    }
}

// L_shl: left by n with saturation, or right where n is negative.
pub fn l_shl(x: i32, n: i16) -> i32
    ensures { result ≡ l_shl x n }
{
    let count = u32::from(n.unsigned_abs());
    if n < 0 {
        sar32(x, count)
    } else {
        l_shl_by(x, count)
    }
}

// L_shr: right by n, or left with saturation where n is negative.
pub fn l_shr(x: i32, n: i16) -> i32
    ensures { result ≡ l_shr x n }
{
    let count = u32::from(n.unsigned_abs());
    if n < 0 {
        l_shl_by(x, count)
    } else {
        sar32(x, count)
    }
}

// L_shr_r: the same with rounding; 0 where n is above 31.
pub fn l_shr_r(x: i32, n: i16) -> i32
    ensures { result ≡ l_shr_r x n }
{
    let k = u32::from(n.unsigned_abs());
    if n < 0 {
        return l_shl_by(x, k);
    }
    if k == 0 {
        return x;
    }
    if k > 31 {
        return 0;
    }
    let half = sar32(x, k - 1);
    sar64(half as i64 + 1, 1) as i32
}

// ---- normalization

// x, or its complement -1 - x where it is negative.
fn magnitude(x: i32) -> u32
    ensures { result ≡ mag x }
{
    x.max(!x).cast_unsigned()
}

// How many doublings bring x into the upper half of the range: the leading zeros of its magnitude less 1; 0 stays 0.
pub fn norm_l(x: i32) -> i16
    ensures { result ≡ norm_l x }
{
    if x == 0 {
        return 0;
    }
    (magnitude(x).leading_zeros() - 1) as i16
}

// ---- whether an operator saturates

fn overflow32(x: i64) -> bool
    ensures { result ≡ overflow32 x }
{
    (x > 2147483647) | (x < -2147483648)
}

// Of l_mult.
pub fn l_mult_overflow(a: i16, b: i16) -> bool
    ensures { result ≡ l_mult_overflow a b }
{
    overflow32(2 * (a as i64 * b as i64))
}

// Of l_msu, its product or its difference.
pub fn l_msu_overflow(acc: i32, a: i16, b: i16) -> bool
    ensures { result ≡ l_msu_overflow acc a b }
{
    l_mult_overflow(a, b) | overflow32(acc as i64 - l_mult(a, b) as i64)
}

// Of round.
pub fn round_overflow(x: i32) -> bool
    ensures { result ≡ round_overflow x }
{
    overflow32(x as i64 + 32768)
}

// Of l_shl(x, 3).
pub fn l_shl3_overflow(x: i32) -> bool
    ensures { result ≡ l_shl3_overflow x }
{
    overflow32(x as i64 * 8)
}

// The 16 bits of x in two's complement, as an unsigned number.
pub fn low16(x: i16) -> u16
    ensures { result ≡ low16 x }
{
    x.cast_unsigned()
}

// ---- the extended operators of oper_32b

// A 32-bit value as its upper 16 bits and the 15 bits below them.
#[derive(Clone, Copy)]
pub struct Split {
    pub upper: i16,
    pub lower: i16,
}

// L_Extract: the value is upper * 2^16 + lower * 2 and its last bit.
pub fn split_high_low(value: i32) -> Split
    ensures { result ≡ split_high_low value }
{
    let upper = extract_h(value);
    let remainder = l_msu(sar32(value, 1), upper, 16384);
    Split {
        upper,
        lower: extract_l(remainder),
    }
}

// L_Comp: upper * 2^16 + lower * 2. Two words and no `Split`, here and below: gain has them of a logarithm too.
pub fn join_high_low(upper: i16, lower: i16) -> i32
    ensures { result ≡ join_high_low upper lower }
{
    l_mac(l_deposit_h(upper), lower, 1)
}

// Mpy_32_16: a split number times a factor in Q15.
pub fn multiply_split_by_16(upper: i16, lower: i16, factor: i16) -> i32
    ensures { result ≡ multiply_split_by_16 upper lower factor }
{
    l_mac(l_mult(upper, factor), mult(lower, factor), 1)
}

// From one entry of a table toward the next by a weight in Q15.
pub fn interpolate_q15(entry: i16, next: i16, weight: i16) -> i32
    ensures { result ≡ interpolate_q15 entry next weight }
{
    l_msu(l_deposit_h(entry), sub(entry, next), weight)
}

// ---- the base-2 logarithm and power of clause 3.9.1

#[derive(Clone, Copy)]
pub struct Log2 {
    pub integer: i16,
    pub fraction: i16,
}

// The logarithm's fraction of a normalized value, 2^30 or more, from the two entries of the block's table that it lies between.
fn log_fraction(t: &[i16], m: u32) -> i16
    requires { (2 ^ 30 ≤ m) × (m < 2 ^ 31) }
    ensures { result ≡ log_fraction m (log2 t.now) }
{
    let segment = (m / 33554432) as usize;
    let weight = (m / 1024 % 32768) as i16;
    let entry = block::word(t, 1791 + segment);
    let next = block::word(t, 1792 + segment);
    extract_h(interpolate_q15(entry, next, weight))
}

// The base-2 logarithm of a positive value, by the table of the block t; 0 and 0 of any other.
pub fn base2_log(t: &[i16], value: i32) -> Log2
    ensures { result ≡ base2_log value (log2 t.now) }
{
    if value < 1 {
        return Log2 {
            integer: 0,
            fraction: 0,
        };
    }
    let left = norm_l(value);
    let m = l_shl(value, left) as u32;
    Log2 {
        integer: 30 - left,
        fraction: log_fraction(t, m),
    }
}

// 2 to the power of integer + fraction (Q15), through the table of 2^(i / 32).
pub fn base2_power(integer: i16, fraction: i16) -> i32
    ensures { result ≡ base2_power integer fraction }
{
    let f = low16(fraction);
    let segment = (f / 1024 % 32) as usize;
    let weight = (32 * (f % 1024)) as i16;
    let mantissa = interpolate_q15(formula::pow2(segment), formula::pow2(segment + 1), weight);
    l_shr_r(mantissa, sub(30, integer))
}
