// One call of an operator by its number in the list.
use replay::hex::{signed, word};

// A result of 16 bits has its sign carried on to 32; where there is one alone, the second is 0.
#[derive(Clone, Copy, PartialEq, Eq)]
pub struct Results {
    pub first: u32,
    pub second: u32,
}

impl From<i32> for Results {
    fn from(x: i32) -> Results {
        Results {
            first: x.cast_unsigned(),
            second: 0,
        }
    }
}

impl From<i16> for Results {
    fn from(x: i16) -> Results {
        Results::from(x as i32)
    }
}

impl From<bool> for Results {
    fn from(over: bool) -> Results {
        Results {
            first: over as u32,
            second: 0,
        }
    }
}

impl From<(i16, i16)> for Results {
    fn from(pair: (i16, i16)) -> Results {
        Results {
            first: (pair.0 as i32).cast_unsigned(),
            second: (pair.1 as i32).cast_unsigned(),
        }
    }
}

// The value of 64 bits whose halves are given.
fn halves(high: u32, low: u32) -> i64 {
    signed(high) as i64 * 4294967296 + low as i64
}

// A table block with the made-up logarithm table of the list.
fn log_block() -> [i16; 1880] {
    let mut block = [0i16; 1880];
    let mut v: i32 = -9000;
    for i in 0..33usize {
        block[1823 + i] = basic_op::extract_l(v);
        v = basic_op::l_add(v, (62 * i + 38) as i32);
    }
    block
}

fn log(x: i32) -> (i16, i16) {
    let l = basic_op::base2_log(&log_block(), x);
    (l.integer, l.fraction)
}

fn split(x: i32) -> (i16, i16) {
    let s = basic_op::split_high_low(x);
    (s.upper, s.lower)
}

// A split number times a factor, as the definitions of lpc multiply; the code of lpc takes one step.
fn product(x: i32, factor: i16) -> i32 {
    let s = basic_op::split_high_low(x);
    basic_op::multiply_split_by_16(s.upper, s.lower, factor)
}

// The operators are the numbers of the list: an enum would name each twice, and no plainer than its arm does.
pub(crate) fn call(op: u32, a: u32, b: u32, c: u32) -> Results {
    match op {
        0x00 => basic_op::sat16(signed(a)).into(),
        0x01 => basic_op::add(word(a), word(b)).into(),
        0x02 => basic_op::sub(word(a), word(b)).into(),
        0x03 => basic_op::shl(word(a), word(b)).into(),
        0x04 => basic_op::mult(word(a), word(b)).into(),
        0x05 => basic_op::l_mult(word(a), word(b)).into(),
        0x06 => basic_op::l_add(signed(a), signed(b)).into(),
        0x07 => basic_op::l_sub(signed(a), signed(b)).into(),
        0x08 => basic_op::l_mac(signed(a), word(b), word(c)).into(),
        0x09 => basic_op::l_msu(signed(a), word(b), word(c)).into(),
        0x0a => basic_op::l_shl(signed(a), word(b)).into(),
        0x0b => basic_op::l_shr(signed(a), word(b)).into(),
        0x0c => basic_op::l_shr_r(signed(a), word(b)).into(),
        0x0d => basic_op::round(signed(a)).into(),
        0x0e => basic_op::extract_h(signed(a)).into(),
        0x0f => basic_op::extract_l(signed(a)).into(),
        0x10 => basic_op::l_deposit_h(word(a)).into(),
        0x11 => basic_op::norm_l(signed(a)).into(),
        0x12 => split(signed(a)).into(),
        0x13 => basic_op::join_high_low(word(a), word(b)).into(),
        0x14 => basic_op::multiply_split_by_16(word(a), word(b), word(c)).into(),
        0x15 => product(signed(a), word(b)).into(),
        0x16 => basic_op::base2_power(word(a), word(b)).into(),
        0x17 => basic_op::l_mult_overflow(word(a), word(b)).into(),
        0x18 => basic_op::l_msu_overflow(signed(a), word(b), word(c)).into(),
        0x19 => basic_op::l_shl3_overflow(signed(a)).into(),
        0x1a => basic_op::round_overflow(signed(a)).into(),
        0x1b => basic_op::sar16(word(a), b).into(),
        0x1c => basic_op::sar32(signed(a), b).into(),
        0x1d => basic_op::interpolate_q15(word(a), word(b), word(c)).into(),
        0x1e => log(signed(a)).into(),
        _ => basic_op::sat32(halves(a, b)).into(),
    }
}
