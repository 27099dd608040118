// What is printed of a frame: what the states of both tell before it (crate agree); for each decoder how many frames it had concealed, its seed before the frame, and its values, the long ones by the CRC-32 of their words'
// bytes, low byte first; then what is equal in both, word by word.
use crate::values::Values;

// Words behind their name.
fn words<R: Print>(rt: &R, name: &str, words: &[i16]) {
    let _ = print!(rt; "{name}");
    for x in words {
        let bits = x.cast_unsigned();
        let _ = print!(rt; " {bits:04x}");
    }
}

// The check sum of words behind its name.
fn print_sum<R: Print>(rt: &R, name: &str, words: &[i16]) {
    let mut sum = 0u32;
    for x in words {
        sum = crc32::more(sum, &x.to_le_bytes());
    }
    let _ = print!(rt; " {name} {sum:08x}");
}

// The name of what is equal.
fn named<R: Print>(rt: &R, name: &str, equal: bool) {
    if equal {
        let _ = print!(rt; " {name}");
    }
}

pub(crate) fn frame<R: Print>(rt: &R, pair: u32, n: u32, kind: u32, agree: u32) {
    let _ = println!(rt; "pair {pair} frame {n} kind {kind} agree {agree}");
}

pub(crate) fn decoder<R: Print>(rt: &R, name: &str, concealed: u32, v: &Values) {
    let _ = print!(rt; "{name} concealed {concealed}");
    words(rt, " seed", &[v.seed]);
    words(rt, " delays", &v.delays[..2]);
    words(rt, ",", &v.delays[2..]);
    words(rt, " pitch-gains", &v.pitch_gains);
    words(rt, " fixed-gains", &v.fixed_gains);
    print_sum(rt, "frequencies", &v.frequencies);
    print_sum(rt, "filters", &v.filters);
    print_sum(rt, "pulses", &v.pulses);
    print_sum(rt, "samples", &v.samples);
    let _ = println!(rt; "");
}

pub(crate) fn equal<R: Print>(rt: &R, a: &Values, b: &Values) {
    let _ = print!(rt; "equal:");
    named(rt, "delays", a.delays == b.delays);
    named(rt, "pitch-gains", a.pitch_gains == b.pitch_gains);
    named(rt, "fixed-gains", a.fixed_gains == b.fixed_gains);
    named(rt, "frequencies", a.frequencies == b.frequencies);
    named(rt, "filters", a.filters == b.filters);
    named(rt, "seeds", a.seed == b.seed);
    named(rt, "pulses", a.pulses == b.pulses);
    named(rt, "signal", a.signal == b.signal);
    named(rt, "samples", a.samples == b.samples);
    let _ = println!(rt; "");
}
