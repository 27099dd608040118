// Two decoders through a gap (docs/AGREEMENT.md): they begin fresh, get unlike pasts, then the same frames, and what each makes of these is printed, with
// what is equal. Standard input has lines of fixed sizes, a letter and words of four hexadecimal digits. T: the tables. P: a new pair of decoders, both fresh.
// A, B: kind, how many times, payload: frames for that decoder alone. C: kind, payload: a frame for both. oracle/gap writes it, and what must be printed, with the Rust's values.
#![tactic(auto)]

mod show;
mod values;

use replay::{part, stream};
use values::Values;

// A decoder of the pair: its state, and how many frames it has concealed.
#[derive(Drop)]
struct Side {
    b: [i16; 234],
    concealed: u32,
}

// The tables, the pair of decoders, the number of the pair, and how many frames both got.
#[derive(Drop)]
struct Pair {
    t: [i16; 1880],
    first: Side,
    second: Side,
    number: u32,
    frames: u32,
}

// Prints a refusal, and answers its number.
fn refused<R: Print>(rt: &R, code: u32) -> u32 {
    if code != 0 {
        let _ = println!(rt; "refused {code}");
    }
    code
}

// A frame with as much of the payload as its kind has. Answers 0 or the refusal.
fn frame<R: Print>(
    rt: &R,
    t: &[i16; 1880],
    b: &mut [i16; 234],
    kind: u32,
    payload: [u8; 10],
    out: &mut [i16; 80],
) -> u32 {
    let n = payload.len().min(kind::payload_length(kind));
    refused(
        rt,
        refusal::code(decoder::frame(t, b, kind, &payload[..n], out)),
    )
}

// The payload of a line for one decoder, behind kind and number.
fn payload(line: &[i16; 12]) -> [u8; 10] {
    let rest: [i16; 11] = part::array(line, 1);
    part::payload(&rest)
}

impl Side {
    fn new() -> Side {
        Side {
            b: [0; 234],
            concealed: 0,
        }
    }

    // Begins afresh.
    fn start<R: Print>(&mut self, rt: &R, t: &[i16; 1880]) {
        refused(rt, refusal::code(state::fresh_state(t, &mut self.b)));
        self.concealed = 0;
    }

    // Counts a frame that is decoded where it is concealed.
    fn count(&mut self, kind: u32, decoded: bool) {
        if decoded && kind != 0 {
            self.concealed = self.concealed.saturating_add(1);
        }
    }

    // A line for this decoder alone: its frame as many times as it says.
    fn past<R: Input + Print>(&mut self, rt: &R, t: &[i16; 1880]) -> Option<()> {
        let line: [i16; 12] = stream::words(rt)?;
        let kind = part::number(&line, 0) as u32;
        let bytes = payload(&line);
        let mut out = [0i16; 80];
        for _ in 0..part::number(&line, 1) {
            let code = frame(rt, t, &mut self.b, kind, bytes, &mut out);
            self.count(kind, code == 0);
        }
        Some(())
    }

    // A frame, and its values where it isn't refused.
    fn decode<R: Print>(
        &mut self,
        rt: &R,
        t: &[i16; 1880],
        kind: u32,
        payload: [u8; 10],
    ) -> Option<Values> {
        let mut out = [0i16; 80];
        let before = self.b;
        let d = parameters::parameters(t, plc::decide(kind, &payload), state::read_params(&before));
        let code = frame(rt, t, &mut self.b, kind, payload, &mut out);
        if code == 0 {
            Some(values::of_frame(&before, d, out))
        } else {
            None
        }
    }
}

// What the states of both tell of this frame and of all later ones that both get: 0 nothing, 1 parameters, 2 pulses too, 3 samples too.
fn told<R: Print>(rt: &R, a: &[i16; 234], b: &[i16; 234]) -> u32 {
    match agree::agree(a, b) {
        Err(r) => refused(rt, r.number()),
        Ok(found) => found as u32,
    }
}

impl Pair {
    // A new pair.
    fn start<R: Input + Print>(&mut self, rt: &R) -> Option<()> {
        let end = stream::byte(rt);
        self.first.start(rt, &self.t);
        self.second.start(rt, &self.t);
        self.number = self.number.saturating_add(1);
        self.frames = 0;
        end.map(|_| ())
    }

    // What is printed of a frame for both: nothing but the refusals where one is refused.
    fn show<R: Print>(&mut self, rt: &R, kind: u32, agree: u32, a: &Values, b: &Values) {
        self.frames = self.frames.saturating_add(1);
        show::frame(rt, self.number, self.frames, kind, agree);
        show::decoder(rt, "a", self.first.concealed, a);
        show::decoder(rt, "b", self.second.concealed, b);
        show::equal(rt, a, b);
    }

    // A line for both.
    fn common<R: Input + Print>(&mut self, rt: &R) -> Option<()> {
        let line: [i16; 11] = stream::words(rt)?;
        let kind = part::number(&line, 0) as u32;
        let payload = part::payload(&line);
        let agree = told(rt, &self.first.b, &self.second.b);
        let first = self.first.decode(rt, &self.t, kind, payload);
        let second = self.second.decode(rt, &self.t, kind, payload);
        if let (Some(a), Some(b)) = (&first, &second) {
            self.show(rt, kind, agree, a, b);
        }
        self.first.count(kind, first.is_some());
        self.second.count(kind, second.is_some());
        Some(())
    }

    // The next line. None at the end.
    fn line<R: Input + Print>(&mut self, rt: &R) -> Option<()> {
        match stream::byte(rt)? {
            b'T' => stream::read_words(rt, &mut self.t),
            b'P' => self.start(rt),
            b'A' => self.first.past(rt, &self.t),
            b'B' => self.second.past(rt, &self.t),
            b'C' => self.common(rt),
            _ => None,
        }
    }
}

// All lines, up to 2^32 - 1.
fn main(rt: HostRuntime) {
    let mut pair = Pair {
        t: [0; 1880],
        first: Side::new(),
        second: Side::new(),
        number: 0,
        frames: 0,
    };
    replay::repeat(|| pair.line(&rt));
}
