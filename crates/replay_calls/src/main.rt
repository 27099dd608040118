// Replays texts of calls through crate read_step, in reads of given sizes, and prints what they give; what must be printed is the Rust's answer.
// Standard input: 3,760 bytes of tables; then for each call four numbers of four bytes, low byte first (length of the text, bytes of a read, the lines, each a
// frame, and lost frames to start with) and its text, at most 65,536 bytes.
#![tactic(auto)]

ghost use Rattle.std.specs.Prelude.{◌≤◌, ◌<◌, ◌+◌, length};
ghost use Rattle.print.specs.Print.{form_room};
ghost use Rattle.read_step.specs.Reading.{input_room};

use line_step::Progress;
use print::FORM_ROOM;
use read_step::{INPUT, OUTPUT, Reading};
use replay::stream;
use std::io::Print;

// As many reads as there can be.
const MOST: u32 = u32::MAX;

// Where a call is: where it stands, and the place in its text.
#[derive(Clone, Copy)]
struct Place {
    call: Reading,
    at: usize,
}

// A read: bytes of the text from `at` on to the input from `to` on, `size` at most.
fn feed(text: &[u8], at: usize, size: usize, input: &mut [u8], to: usize) -> usize
    requires { (at ≤ length text.now) × (to ≤ length input.old) }
    ensures { (at + result ≤ length text.now) × (to + result ≤ length input.old) }
{
    let n = size.min((text.len() - at).min(input.len() - to));
    input[to..to + n].copy_from_slice(&text[at..at + n]);
    n
}

// One read, and what its lines print. None follows the end or a refusal.
fn turn<R: Print>(
    rt: &R,
    t: &[i16],
    b: &mut [i16],
    p: &mut Place,
    text: &[u8],
    size: usize,
    input: &mut [u8; INPUT],
    out: &mut [u8; OUTPUT],
) -> Option<()>
    requires { (p.old.call.held ≤ input_room) × (p.old.at ≤ length text.now) }
    ensures { (p.new.call.held ≤ input_room) × (p.new.at ≤ length text.now) }
{
    let got = feed(text, p.at, size, input, p.call.held);
    p.at += got;
    p.call = read_step::read_step(t, b, p.call, got, input, out);
    let _ = rt.write_all(&out[..p.call.written]);
    if 0 < got && p.call.job.code == 0 {
        Some(())
    } else {
        None
    }
}

// One call.
fn replay<R: Print>(rt: &R, t: &[i16], b: &mut [i16], call: Reading, text: &[u8], size: usize)
    requires { call.held ≤ input_room }
{
    let mut input = [0u8; INPUT];
    let mut out = [0u8; OUTPUT];
    let mut p = Place { call, at: 0 };
    for _ in 0..MOST {
        if turn(rt, t, b, &mut p, text, size, &mut input, &mut out).is_none() {
            break;
        }
    }
    let mut form = [0u8; FORM_ROOM];
    let n = read_step::finish(p.call, &input, &mut form);
    let _ = rt.write_all(&form[..n]);
}

// The next call. None at the end.
fn case<R: Input + Print>(rt: &R, t: &[i16], b: &mut [i16], text: &mut [u8]) -> Option<()> {
    let mut head = [0u8; 16];
    if stream::read_full(rt, &mut head) < 16 {
        return None;
    }
    let mut numbers = [0u64; 4];
    words::numbers(&[4; 4], &head, &mut numbers);
    let [length, size, frames, lost] = numbers;
    let length = text.len().min(length as usize);
    let counts = count::Counts::of_numbers([frames, lost, 0, 0, 0, 0, 0]);
    let job = Progress {
        code: 0,
        lines: (frames % 4294967296) as u32,
        counts,
    };
    let call = Reading {
        job,
        held: 0,
        written: 0,
    };
    let _ = state::fresh_state(t, b);
    let got = stream::read_full(rt, &mut text[..length]);
    replay(rt, t, b, call, &text[..length], size as usize);
    if got == length { Some(()) } else { None }
}

fn main(rt: HostRuntime) {
    let mut file = [0u8; 3760];
    let mut t = [0i16; 1880];
    let mut b = [0i16; 234];
    stream::read_full(&rt, &mut file);
    let _ = call::begin(&file, &mut t, &mut b);
    let mut text = [0u8; 65536];
    replay::repeat(|| case(&rt, &t, &mut b, &mut text));
}
