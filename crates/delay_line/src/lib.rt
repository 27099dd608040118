// The table that the program `delays` prints (change request 12): its lines, written into lent memory. Every line but a row begins with `#`, so that programs that draw take it as it is.
#![tactic(auto)]

ghost use Rattle.std.specs.Prelude.{◌≡◌, ◌+◌, ◌*◌, ◌≤◌, pos, ◌+ℤ◌, ◌*ℤ◌, length};
ghost use Rattle.print.specs.Print.{over};
ghost use Rattle.text.specs.Text.{Put};
ghost use Rattle.pitch.specs.Pitch.{nat};
ghost use Rattle.delay_line.specs.DelayLine.{thirds, sum, heading, row, five, by_rule, part, share, refused};

use count::Counts;
use depth_table::{hundredths, two};
use pitch::Delay;
use print::{Writer, figure, put};

// The bytes of the longest line, or of the two of the heading.
pub const ROOM: usize = 256;

// ---- a delay in thirds of a sample

// Three times the first number, and the second.
fn three(integer: i16, fraction: i16) -> i32
    ensures { result ≡ pos 3 *ℤ integer +ℤ fraction }
{
    3 * integer as i32 + fraction as i32
}

// z, or 0 where it is negative.
fn not_below(z: i32) -> u32
    ensures { result ≡ nat z }
{
    if z < 0 {
        return 0;
    }
    z as u32
}

// The thirds of a delay: three for each sample, and the fraction. Not below 0, which no delay of a frame is.
pub fn thirds(d: Delay) -> u32
    ensures { result ≡ thirds d }
{
    not_below(three(d.integer, d.fraction))
}

// ---- the lines. Each is at the front of lent bytes: its length is answered, and the bytes behind it are as they were.

// What the columns are, and the rules by their numbers.
pub fn heading(out: &mut [u8; ROOM]) -> usize
    ensures { (result ≤ 256) × ((result ≡ length heading) × (out.new ≡ over heading out.old)) }
{
    let mut w = Writer::new(out);
    w.put(
        b"# delays in thirds of a sample, each with its rule: 1 coded in thirds, 2 coded whole, 3 coded relative to the first, 4 carried after bad parity, 5 carried in concealment\n# frame delay1 rule1 delay2 rule2\n",
    );
    w.written()
}

// `FRAME DELAY RULE DELAY RULE`: the delay and the rule of the first subframe, then of the second.
pub fn row(frame: u32, d1: u32, r1: u32, d2: u32, r2: u32, out: &mut [u8; ROOM]) -> usize
    ensures { (result ≤ 256) × ((result ≡ length (row frame d1 r1 d2 r2)) × (out.new ≡ over (row frame d1 r1 d2 r2) out.old)) }
{
    let mut w = Writer::new(out);
    w.figure(b"", frame);
    w.figure(b" ", d1);
    w.figure(b" ", r1);
    w.figure(b" ", d2);
    w.figure(b" ", r2);
    w.put(b"\n");
    w.written()
}

// The sum of two numbers, at most the greatest of 32 bits.
#[tactic(auto, unfolding(crate::specs::DelayLine::sum))]
fn sum(a: u32, b: u32) -> u32
    ensures { result ≡ sum a b }
{
    a.saturating_add(b)
}

// `# rules 1 to 5: A B C D E`: how many delays each rule has.
fn five(a: u32, b: u32, c: u32, d: u32, e: u32, out: &mut [u8; ROOM]) -> usize
    ensures { (result ≤ 256) × ((result ≡ length (five a b c d e)) × (out.new ≡ over (five a b c d e) out.old)) }
{
    let mut w = Writer::new(out);
    w.figure(b"# rules 1 to 5: ", a);
    w.figure(b" ", b);
    w.figure(b" ", c);
    w.figure(b" ", d);
    w.figure(b" ", e);
    w.put(b"\n");
    w.written()
}

// `# rules 1 to 5: A B C D E` of a call's counts.
pub fn by_rule(c: Counts, out: &mut [u8; ROOM]) -> usize
    ensures { (result ≤ 256) × ((result ≡ length (by_rule c)) × (out.new ≡ over (by_rule c) out.old)) }
{
    five(c.thirds, c.whole, c.relative, c.parity, c.concealed, out)
}

// `# carried C of S delays, P %`, P with two decimals, rounded down.
fn part(carried: u32, of: u32, out: &mut [u8; ROOM]) -> usize
    ensures { (result ≤ 256) × ((result ≡ length (part carried of)) × (out.new ≡ over (part carried of) out.old)) }
{
    let h = hundredths(carried, of);
    let a = figure(b"# carried ", carried, 0, out);
    let b = figure(b" of ", of, a, out);
    let c = figure(b" delays, ", h / 100, b, out);
    let d = put(b".", c, out);
    let e = two(h, d, out);
    put(b" %\n", e, out)
}

// The share of carried delays, those of rules 4 and 5, among two for each frame.
pub fn share(c: Counts, out: &mut [u8; ROOM]) -> usize
    ensures { (result ≤ 256) × ((result ≡ length (share c)) × (out.new ≡ over (share c) out.old)) }
{
    part(sum(c.parity, c.concealed), sum(c.frames, c.frames), out)
}

// `# refused code C line L`.
pub fn refused(code: u32, line: u32, out: &mut [u8; ROOM]) -> usize
    ensures { (result ≤ 256) × ((result ≡ length (refused code line)) × (out.new ≡ over (refused code line) out.old)) }
{
    let mut w = Writer::new(out);
    w.figure(b"# refused code ", code);
    w.figure(b" line ", line);
    w.put(b"\n");
    w.written()
}
