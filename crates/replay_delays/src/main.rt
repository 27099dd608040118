// The delays of every P1 with both P0, every P2 and every carried delay that 01 accepts: a line for each P1, with the CRC-32 of all that `voice_delays` gives, first
// for the fields as they are, then with bits set above them, which are not read. The last line is that of erased frames. `g729-oracle delays` writes what
// must be printed, from the Rust.
#![tactic(auto)]

use pitch::{Delays, PitchState};

// The least carried delay, and the first that is not accepted.
const LEAST: u16 = 19;

const PAST: u16 = 145;

// The bits above a field; above P1 an odd number of them, which a parity over more than P1 would tell.
const ABOVE_P1: u16 = 32512;

const ABOVE_P0: u16 = 65534;

const ABOVE_P2: u16 = 65504;

// The check sum goes on over a frame: both delays with their fractions, and the delay that is carried on.
fn frame(sum: u32, found: Delays) -> u32 {
    let first = found.first;
    let second = found.second;
    let state = found.state;
    let mut bytes = [0u8; 10];
    words::to_bytes(
        &[
            first.integer,
            first.fraction,
            second.integer,
            second.fraction,
            state.old,
        ],
        &mut bytes,
    );
    crc32::more(sum, &bytes)
}

// Over every carried delay.
fn carried(sum: u32, p1: u16, p0: u16, p2: u16) -> u32 {
    let mut c = sum;
    for delay in LEAST..PAST {
        let old = delay as i16;
        c = frame(c, pitch::voice_delays(PitchState { old }, p1, p0, p2));
    }
    c
}

// Over every P2, all with these bits above them.
fn second(sum: u32, p1: u16, p0: u16, above: u16) -> u32 {
    let mut c = sum;
    for p2 in 0..32u16 {
        c = carried(c, p1, p0, p2 | above);
    }
    c
}

// Over every carried delay, the frame erased.
fn erased() -> u32 {
    let mut c = 0;
    for delay in LEAST..PAST {
        let old = delay as i16;
        c = frame(c, pitch::concealed_delays(PitchState { old }));
    }
    c
}

// The line of a P1.
fn line<R: Print>(rt: &R, p1: u16) {
    let plain = second(second(0, p1, 0, 0), p1, 1, 0);
    let p1_above = p1 | ABOVE_P1;
    let even = second(0, p1_above, ABOVE_P0, ABOVE_P2);
    let above = second(even, p1_above, ABOVE_P0 | 1, ABOVE_P2);
    let _ = println!(rt; "p1 {p1} {plain:08x} {above:08x}");
}

fn main(rt: HostRuntime) {
    for p1 in 0..256u16 {
        line(&rt, p1);
    }
    let sum = erased();
    let _ = println!(rt; "erased {sum:08x}");
}
