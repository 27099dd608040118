// Moving-average prediction of the line spectral frequencies of G.729, and its inverse: clauses 3.2.4 and 4.4.1.
// Each contract is an equation with a definition of specs/Ma.antt.
#![tactic(auto)]

ghost use Rattle.std.specs.Prelude.{◌≡◌, ◌<◌, pos};
ghost use Rattle.basic_op.specs.Ops.{l_mult, l_shl, extract_h, l_deposit_h};
ghost use Rattle.lsp_ma.specs.Ma.{add_past, subtract_past, ma_prediction, invert_ma_prediction};

// The past terms of word i, in order of age, added to a sum.
fn add_past(past: &[[i16; 10]; 4], weights: &[[i16; 10]; 4], i: usize, sum: i32) -> i32
    requires { i < 10 }
    ensures { result ≡ add_past past.now weights.now i sum }
{
    let mut total = sum;
    for k in 0..4 {
        total = basic_op::l_mac(total, past[k][i], weights[k][i]);
    }
    total
}

// The past terms of word i, in order of age, subtracted from a sum. A twin of `add_past` but for the operator: as a parameter it would put a
// function into both contracts, and the definitions of the two equations are apart.
fn subtract_past(past: &[[i16; 10]; 4], weights: &[[i16; 10]; 4], i: usize, sum: i32) -> i32
    requires { i < 10 }
    ensures { result ≡ subtract_past past.now weights.now i sum }
{
    let mut total = sum;
    for k in 0..4 {
        total = basic_op::l_msu(total, past[k][i], weights[k][i]);
    }
    total
}

// One word of equation (20).
fn predicted(
    past: &[[i16; 10]; 4],
    weights: &[[i16; 10]; 4],
    i: usize,
    l: i16,
    complement: i16,
) -> i16
    requires { i < 10 }
    ensures { result ≡ extract_h (add_past past.now weights.now i (l_mult l complement)) }
{
    basic_op::extract_h(add_past(past, weights, i, basic_op::l_mult(l, complement)))
}

// One word of equation (92).
fn inverted(
    past: &[[i16; 10]; 4],
    weights: &[[i16; 10]; 4],
    i: usize,
    omega: i16,
    inverse: i16,
) -> i16
    requires { i < 10 }
    ensures { result ≡ extract_h (l_shl (l_mult (extract_h (subtract_past past.now weights.now i (l_deposit_h omega))) inverse) (pos 3)) }
{
    let residual = subtract_past(past, weights, i, basic_op::l_deposit_h(omega));
    let scaled = basic_op::l_mult(basic_op::extract_h(residual), inverse);
    basic_op::extract_h(basic_op::l_shl(scaled, 3))
}

// The frequencies that a row gives with the past rows (clause 3.2.4, equation (20)).
pub fn ma_prediction(
    l: [i16; 10],
    past: [[i16; 10]; 4],
    weights: [[i16; 10]; 4],
    complement: [i16; 10],
) -> [i16; 10]
    ensures { result ≡ ma_prediction l past weights complement }
{
    let mut out = [0i16; 10];
    for i in 0..10 {
        out[i] = predicted(&past, &weights, i, l[i], complement[i]);
    }
    out
}

// The row that gives these frequencies with the past rows (clause 4.4.1, equation (92)).
pub fn invert_ma_prediction(
    omega: [i16; 10],
    past: [[i16; 10]; 4],
    weights: [[i16; 10]; 4],
    inverse: [i16; 10],
) -> [i16; 10]
    ensures { result ≡ invert_ma_prediction omega past weights inverse }
{
    let mut out = [0i16; 10];
    for i in 0..10 {
        out[i] = inverted(&past, &weights, i, omega[i], inverse[i]);
    }
    out
}
