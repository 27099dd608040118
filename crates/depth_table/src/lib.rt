// The table that the program `depths` prints: its lines, written into lent memory, and what is worked out of the arrivals where no option gives it.
#![tactic(auto)]

ghost use Rattle.std.specs.Prelude.{◌≡◌, ◌+◌, ◌≤◌, length};
ghost use Rattle.print.specs.Print.{over};
ghost use Rattle.text.specs.Text.{Put};
ghost use Rattle.depth_table.specs.Table.{frames, began, earliest, hundredths, two, percent, heading, row, least, never};

use print::{figure, put};

// The bytes of the longest line, or of the two of the heading.
pub const ROOM: usize = 80;

// ---- what is worked out of the arrivals

// How many frames there are at least: one more than the greatest number, and none where nothing arrived.
pub fn frames(numbers: &[u32]) -> u64
    ensures { result ≡ frames numbers.now }
{
    let mut most = 0u64;
    for n in numbers {
        most = most.max(u64::from(*n) + 1);
    }
    most
}

// When frame 0 went out, if the frame of this number went out when it arrived. Not below 0.
fn began(number: u32, time: u32) -> u32
    ensures { result ≡ began number time }
{
    u64::from(time).saturating_sub(10 * u64::from(number)) as u32
}

// The start at which depth 0 is just enough for the fastest frame; 0 where nothing arrived. Arrivals are as many as the shorter list has.
pub fn earliest(numbers: &[u32], times: &[u32]) -> u32
    ensures { result ≡ earliest numbers.now times.now }
{
    let n = numbers.len().min(times.len());
    if n == 0 {
        return 0;
    }
    let mut at = u32::MAX;
    for i in 0..n {
        at = at.min(began(numbers[i], times[i]));
    }
    at
}

// ---- the lines. Each is at the front of lent bytes: its length is answered, and the bytes behind it are as they were.

// Hundredths of a percent, rounded down. More lost frames than there are count as all.
pub fn hundredths(lost: u32, frames: u32) -> u32
    ensures { result ≡ hundredths lost frames }
{
    if frames == 0 {
        return 0;
    }
    (10000 * u64::from(lost.min(frames)) / u64::from(frames)) as u32
}

// The last two digits of a number.
pub fn two(n: u32, from: usize, out: &mut [u8]) -> usize
    requires { from + 2 ≤ length out.old }
    ensures { Put (two n) from out.old result out.new }
{
    out[from] = 48 + (n / 10 % 10) as u8;
    out[from + 1] = 48 + (n % 10) as u8;
    from + 2
}

// A blank, the percentage with two decimals, and the line feed.
fn percent(h: u32, from: usize, out: &mut [u8]) -> usize
    requires { from + 15 ≤ length out.old }
    ensures { (result ≤ from + 15) × Put (percent h) from out.old result out.new }
{
    let a = figure(b" ", h / 100, from, out);
    let b = put(b".", a, out);
    let c = two(h, b, out);
    put(b"\n", c, out)
}

// `# frames N, arrivals M, start S` and `# depth lost percent`.
pub fn heading(frames: u32, arrivals: u32, start: u32, out: &mut [u8; ROOM]) -> usize
    ensures { (result ≤ 80) × ((result ≡ length (heading frames arrivals start)) × (out.new ≡ over (heading frames arrivals start) out.old)) }
{
    let a = figure(b"# frames ", frames, 0, out);
    let b = figure(b", arrivals ", arrivals, a, out);
    let c = figure(b", start ", start, b, out);
    put(b"\n# depth lost percent\n", c, out)
}

// `DEPTH LOST PERCENT`, of so many frames.
pub fn row(depth: u32, lost: u32, frames: u32, out: &mut [u8; ROOM]) -> usize
    ensures { (result ≤ 80) × ((result ≡ length (row depth lost frames)) × (out.new ≡ over (row depth lost frames) out.old)) }
{
    let h = hundredths(lost, frames);
    let a = figure(b"", depth, 0, out);
    let b = figure(b" ", lost, a, out);
    percent(h, b, out)
}

// `# least D: at most N frames are lost`.
pub fn least(depth: u32, most: u32, out: &mut [u8; ROOM]) -> usize
    ensures { (result ≤ 80) × ((result ≡ length (least depth most)) × (out.new ≡ over (least depth most) out.old)) }
{
    let a = figure(b"# least ", depth, 0, out);
    let b = figure(b": at most ", most, a, out);
    put(b" frames are lost\n", b, out)
}

// `# least none: L frames never arrived, at most N may be lost`.
pub fn never(lost: u32, most: u32, out: &mut [u8; ROOM]) -> usize
    ensures { (result ≤ 80) × ((result ≡ length (never lost most)) × (out.new ≡ over (never lost most) out.old)) }
{
    let a = figure(b"# least none: ", lost, 0, out);
    let b = figure(b" frames never arrived, at most ", most, a, out);
    put(b" may be lost\n", b, out)
}
