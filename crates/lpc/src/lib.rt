// LSPs to the coefficients of the LP filter: G.729 clause 3.2.6, equations (25) and (26).
// The five stages of the recursion are written out: each is one coefficient longer than the one before.
#![tactic(auto)]

ghost use Rattle.std.specs.Prelude.{◌≡◌, [], ◌∷◌, ◌+◌, ◌*◌, ◌<◌, ◌≤◌, pos, ◌*ℤ◌};
ghost use Rattle.std.specs.Int.Signed.{mag};
ghost use Rattle.laws.specs.Lists.{tab};
ghost use Rattle.basic_op.specs.Ops.{l_add, l_sub};
ghost use Rattle.basic_op.specs.Oper32b.{multiply_32_by_16};
ghost use Rattle.lpc.specs.Lpc.{step, top, polynomial, f1_prime, f2_prime, half_q12, coefficient, lsp_to_lp};

use basic_op::{extract_l, l_add, l_shl, l_shr_r, l_sub, sar32, sar64, sat32};

// 2 q v as one product. For v from -2^31 + 2^16 up to 2^31 - 2^16 - 1 no step of Mpy_32_16 saturates.
fn twice_product(v: i32, q: i16) -> i64
    requires { mag v < 2147418112 }
    ensures { result ≡ multiply_32_by_16 v q *ℤ pos 2 }
{
    sar64(sar32(v, 1) as i64 * q as i64, 15) * 4
}

// A coefficient of a stage between the first and the highest: f(j) - 2 q f(j - 1) + f(j - 2) of the stage before.
fn step(previous: i32, q: i16, same: i32, older: i32) -> i32
    requires { mag previous < 2147418112 }
    ensures { result ≡ step previous q same older }
{
    let doubled = sat32(twice_product(previous, q));
    l_add(l_sub(same, doubled), older)
}

// The highest coefficient of a stage: 2 f(j - 2) - 2 q f(j - 1).
fn top(previous: i32, q: i16, older: i32) -> i32
    requires { mag previous < 2147418112 }
    ensures { result ≡ top previous q older }
{
    let doubled = sat32(twice_product(previous, q));
    l_sub(l_shl(older, 1), doubled)
}

// `step` where the coefficients are so small that no sum saturates, with the bound that the next stage needs.
fn small_step(previous: i32, q: i16, same: i32, older: i32) -> i32
    requires { 2 * mag previous + mag same + mag older + 16 < 2147483648 }
    ensures { (result ≡ step previous q same older) × (mag result ≤ 2 * mag previous + mag same + mag older + 16) }
{
    (same as i64 - twice_product(previous, q) + older as i64) as i32
}

// `top`, likewise.
fn small_top(previous: i32, q: i16, older: i32) -> i32
    requires { 2 * mag previous + 2 * mag older + 16 < 2147483648 }
    ensures { (result ≡ top previous q older) × (mag result ≤ 2 * mag previous + 2 * mag older + 16) }
{
    (older as i64 * 2 - twice_product(previous, q)) as i32
}

// F1 or F2 from its five LSPs, a stage a paragraph. Whatever the LSPs are, the coefficients grow no faster than those of (1 + z)^2n:
// 2; 4, 6; 6, 15, 20; 8, 28, 56, 70; 10, 45, 120, 210, 252. From 128 on a sum may saturate, so in the last two alone.
fn polynomial(q1: i16, q2: i16, q3: i16, q4: i16, q5: i16) -> [i32; 6]
    ensures { result ≡ polynomial (q1 ∷ q2 ∷ q3 ∷ q4 ∷ q5 ∷ []) }
{
    let unit: i32 = 16777216;
    let a1 = small_top(unit, q1, 0);

    let b1 = small_step(unit, q2, a1, 0);
    let b2 = small_top(a1, q2, unit);

    let c1 = small_step(unit, q3, b1, 0);
    let c2 = small_step(b1, q3, b2, unit);
    let c3 = small_top(b2, q3, b1);

    let d1 = small_step(unit, q4, c1, 0);
    let d2 = small_step(c1, q4, c2, unit);
    let d3 = small_step(c2, q4, c3, c1);
    let d4 = small_top(c3, q4, c2);

    let e1 = small_step(unit, q5, d1, 0);
    let e2 = small_step(d1, q5, d2, unit);
    let e3 = small_step(d2, q5, d3, d1);
    let e4 = step(d3, q5, d4, d2);
    let e5 = top(d4, q5, d3);
    [unit, e1, e2, e3, e4, e5]
}

// Equation (25): the sum for F1, the difference for F2. One function of both would take the operator, and its contract too.
fn f1_prime(f1: [i32; 6], i: usize) -> i32
    requires { (0 < i) × (i < 6) }
    ensures { result ≡ f1_prime f1 i }
{
    l_add(f1[i], f1[i - 1])
}

fn f2_prime(f2: [i32; 6], i: usize) -> i32
    requires { (0 < i) × (i < 6) }
    ensures { result ≡ f2_prime f2 i }
{
    l_sub(f2[i], f2[i - 1])
}

// Half of x, from Q24 to Q12.
fn half_q12(x: i32) -> i16
    ensures { result ≡ half_q12 x }
{
    extract_l(l_shr_r(x, 13))
}

// Equation (26): a(i), i from 1 to 5.
fn half_sum(f1: [i32; 6], f2: [i32; 6], i: usize) -> i16
    requires { (0 < i) × (i < 6) }
    ensures { result ≡ half_q12 (l_add (f1_prime f1 i) (f2_prime f2 i)) }
{
    half_q12(l_add(f1_prime(f1, i), f2_prime(f2, i)))
}

// Equation (26): a(11 - i), i from 1 to 5.
fn half_difference(f1: [i32; 6], f2: [i32; 6], i: usize) -> i16
    requires { (0 < i) × (i < 6) }
    ensures { result ≡ half_q12 (l_sub (f1_prime f1 i) (f2_prime f2 i)) }
{
    half_q12(l_sub(f1_prime(f1, i), f2_prime(f2, i)))
}

// The coefficients of the filter from F1 and F2.
fn coefficients(f1: [i32; 6], f2: [i32; 6]) -> [i16; 11]
    ensures { result ≡ tab 11 (coefficient f1 f2) }
{
    let a1 = half_sum(f1, f2, 1);
    let a2 = half_sum(f1, f2, 2);
    let a3 = half_sum(f1, f2, 3);
    let a4 = half_sum(f1, f2, 4);
    let a5 = half_sum(f1, f2, 5);
    let a6 = half_difference(f1, f2, 5);
    let a7 = half_difference(f1, f2, 4);
    let a8 = half_difference(f1, f2, 3);
    let a9 = half_difference(f1, f2, 2);
    let a10 = half_difference(f1, f2, 1);
    [4096, a1, a2, a3, a4, a5, a6, a7, a8, a9, a10]
}

// LSPs, in Q15, to the coefficients a(0) to a(10) of the LP filter, in Q12 (clause 3.2.6).
pub fn lsp_to_lp(q: [i16; 10]) -> [i16; 11]
    ensures { result ≡ lsp_to_lp q }
{
    let f1 = polynomial(q[0], q[2], q[4], q[6], q[8]);
    let f2 = polynomial(q[1], q[3], q[5], q[7], q[9]);
    coefficients(f1, f2)
}
