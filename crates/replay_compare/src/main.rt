// The comparison with a far decoder whose state is not known (crate compare_step), replayed. Standard input has lines of fixed sizes, a letter and words of four
// hexadecimal digits. T: the tables. N: a new comparison. F: kind, payload (10), the 80 samples of the far decoder. Each N and each F prints a line.
// oracle/far writes it, and what must be printed, from a reference in Rust.
#![tactic(auto)]

mod show;

use compare_step::COMPARE_LENGTH;
use replay::{part, stream};

fn table_line<R: Input>(rt: &R, t: &mut [i16; 1880]) -> Option<()> {
    stream::read_words(rt, t)
}

fn new_line<R: Input + Print>(
    rt: &R,
    t: &[i16; 1880],
    m: &mut [i16; COMPARE_LENGTH],
) -> Option<()> {
    let end = stream::byte(rt);
    show::begun(rt, refusal::code(compare_step::begin(t, m)));
    end.map(|_| ())
}

// A frame with as much of the payload as its kind has. Where nothing is computed the samples of an earlier frame stay in `out`.
fn frame<R: Print>(
    rt: &R,
    t: &[i16; 1880],
    m: &mut [i16; COMPARE_LENGTH],
    line: &[i16; 91],
    out: &mut [i16; 80],
) {
    let kind = part::number(line, 0) as u32;
    let payload = part::payload(line);
    let n = payload.len().min(kind::payload_length(kind));
    let far: [i16; 80] = part::array(line, 11);
    show::answer(
        rt,
        compare_step::compare(t, m, kind, &payload[..n], &far, out),
    );
    show::computed(rt, out);
}

fn frame_line<R: Input + Print>(
    rt: &R,
    t: &[i16; 1880],
    m: &mut [i16; COMPARE_LENGTH],
    out: &mut [i16; 80],
) -> Option<()> {
    let line: [i16; 91] = stream::words(rt)?;
    frame(rt, t, m, &line, out);
    Some(())
}

// The next line. False at the end.
fn line<R: Input + Print>(
    rt: &R,
    t: &mut [i16; 1880],
    m: &mut [i16; COMPARE_LENGTH],
    out: &mut [i16; 80],
) -> Option<()> {
    match stream::byte(rt)? {
        b'T' => table_line(rt, t),
        b'N' => new_line(rt, t, m),
        b'F' => frame_line(rt, t, m, out),
        _ => None,
    }
}

// All lines, up to 2^32 - 1.
fn main(rt: HostRuntime) {
    let mut t = [0i16; 1880];
    let mut m = [0i16; COMPARE_LENGTH];
    let mut out = [0i16; 80];
    replay::repeat(|| line(&rt, &mut t, &mut m, &mut out));
}
