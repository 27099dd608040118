// A text of arrivals, read line by line into lent lists.
ghost use Rattle.std.specs.Prelude.{◌≡◌, ◌≤◌, ◌<◌, length, IfOk, IfSome};
ghost use Rattle.depths_files.specs.Held.{Held};

use crate::{MOST, TURNS};
use arrival_line::Arrival;
use depth_options::Wanted;
use files::{Input, Told};
use refusal::Refusal;
use source::{ROOM, Source};

// Why a line is refused.
#[derive(Clone, Copy, Debug, PartialEq, Eq)]
enum Reason {
    // It is no arrival, has no line feed, or is longer than the buffer.
    NoLine,
    NoFeed,
    Long,
    // It is one too many.
    Many,
    // Its number is greater than an hour's frames have, or than the frames that were asked for have.
    High,
    NoFrame,
}

impl Reason {
    fn refusal(self) -> Refusal {
        match self {
            Reason::NoLine | Reason::NoFeed | Reason::Long => Refusal::LineForm,
            Reason::Many | Reason::High => Refusal::PlayoutLimit,
            Reason::NoFrame => Refusal::ArrivalNumber,
        }
    }

    // The refusal in words.
    fn words(self) -> &'static [u8] {
        match self {
            Reason::Many => b"refused (20): more than 360,000 arrivals",
            Reason::High => {
                b"refused (20): a frame number above 359,999, the last of an hour's frames"
            }
            Reason::NoFrame => b"refused (21): a frame number that is not below --frames",
            Reason::NoFeed => b"refused (9): the last line has no line feed; it may be cut",
            Reason::NoLine | Reason::Long => {
                b"refused (9): not a frame number, a space, tab or comma, and a time in milliseconds, both decimal and at most 4294967295"
            }
        }
    }
}

// Why a text ends before its end: it can't be read, or a line is refused.
#[derive(Clone, Copy)]
enum Stop {
    Told,
    Refused { line: u32, reason: Reason },
}

// Where a text is: its bytes at hand, the lines that were begun, and the arrivals that were taken.
#[derive(Clone, Copy)]
struct Place {
    source: Source,
    lines: u32,
    arrivals: usize,
}

// An arrival behind so many others gets its place in the lists; how many there are then.
fn taken(
    w: Wanted,
    a: Arrival,
    behind: usize,
    numbers: &mut [u32],
    times: &mut [u32],
) -> Result<usize, Reason>
    requires { (length numbers.old ≡ 360000) × (length times.old ≡ 360000) }
    ensures { IfOk result (λ n. n ≤ 360000) }
{
    if MOST <= behind {
        return Err(Reason::Many);
    }
    if w.frames.is_some_and(|n| n <= a.number) {
        return Err(Reason::NoFrame);
    }
    if MOST <= a.number as usize {
        return Err(Reason::High);
    }
    numbers[behind] = a.number;
    times[behind] = a.time;
    Ok(behind + 1)
}

// The same of a line, without its line feed.
fn read_line(
    w: Wanted,
    line: &[u8],
    behind: usize,
    numbers: &mut [u32],
    times: &mut [u32],
) -> Result<usize, Reason>
    requires { (length numbers.old ≡ 360000) × (length times.old ≡ 360000) }
    ensures { IfOk result (λ n. n ≤ 360000) }
{
    match arrival_line::read(line) {
        None => Err(Reason::NoLine),
        Some(a) => taken(w, a, behind, numbers, times),
    }
}

// No whole line is at hand: a read, or the end.
fn lacking(
    rt: &HostRuntime,
    from: &Input,
    name: &[u8],
    p: Place,
    input: &mut [u8],
) -> Result<Option<Place>, Stop>
    requires { Held p (length input.old) }
    ensures { IfOk result (λ r. IfSome r (λ q. Held q (length input.old))) }
{
    let s = p.source;
    let left = s.to - s.from;
    if !s.ended && left != input.len() {
        let source = source::fill(rt, from, name, s, input);
        if !source.good {
            return Err(Stop::Told);
        }
        return Ok(Some(Place { source, ..p }));
    }
    if left == 0 {
        return Ok(None);
    }
    let line = line_step::one_more(p.lines);
    let reason = if s.ended {
        Reason::NoFeed
    } else {
        Reason::Long
    };
    Err(Stop::Refused { line, reason })
}

// The line that ends before a place.
fn take(
    w: Wanted,
    p: Place,
    end: usize,
    input: &[u8],
    numbers: &mut [u32],
    times: &mut [u32],
) -> Result<Place, Stop>
    requires held { Held p (length input.now) × ((p.source.from ≤ end) × (end < p.source.to)) }
    requires numbers_len { (length numbers.old ≡ 360000) × (length times.old ≡ 360000) }
    ensures { IfOk result (λ q. Held q (length input.now)) }
{
    let s = p.source;
    let line = line_step::one_more(p.lines);
    match read_line(w, &input[s.from..end], p.arrivals, numbers, times) {
        Ok(arrivals) => Ok(Place {
            source: source::used(s, end + 1 - s.from),
            lines: line,
            arrivals,
        }),
        Err(reason) => Err(Stop::Refused { line, reason }),
    }
}

// The next line, or a read where there is no whole one; none at the end.
fn turn(
    rt: &HostRuntime,
    w: Wanted,
    from: &Input,
    name: &[u8],
    p: Place,
    input: &mut [u8],
    numbers: &mut [u32],
    times: &mut [u32],
) -> Result<Option<Place>, Stop>
    requires { Held p (length input.old) × ((length numbers.old ≡ 360000) × (length times.old ≡ 360000)) }
    ensures { IfOk result (λ r. IfSome r (λ q. Held q (length input.old))) }
{
    let s = p.source;
    let end = octets::find(input, s.from, s.to, 10);
    if end == s.to {
        return lacking(rt, from, name, p, input);
    }
    let next = take(w, p, end, input, numbers, times)?;
    Ok(Some(next))
}

// All lines of a text; how many arrivals they have.
fn lines(
    rt: &HostRuntime,
    w: Wanted,
    from: &Input,
    name: &[u8],
    numbers: &mut [u32; MOST],
    times: &mut [u32; MOST],
) -> Result<usize, Stop>
    ensures { IfOk result (λ n. n ≤ 360000) }
{
    let mut input = [0u8; ROOM];
    let mut p = Place {
        source: source::unread(),
        lines: 0,
        arrivals: 0,
    };
    for _ in 0..TURNS {
        let Some(next) = turn(rt, w, from, name, p, &mut input, numbers, times)? else {
            return Ok(p.arrivals);
        };
        p = next;
    }
    // No text has so many lines.
    Err(Stop::Refused {
        line: p.lines,
        reason: Reason::NoLine,
    })
}

// Reads a text into the lists; how many arrivals it has. Where it is refused, its form is on standard output and why on standard error.
pub(crate) fn read(
    rt: &HostRuntime,
    w: Wanted,
    from: &Input,
    name: &[u8],
    numbers: &mut [u32; MOST],
    times: &mut [u32; MOST],
) -> Result<usize, Told>
    ensures { IfOk result (λ n. n ≤ 360000) }
{
    match lines(rt, w, from, name, numbers, times) {
        Ok(n) => Ok(n),
        Err(Stop::Told) => Err(Told),
        Err(Stop::Refused { line, reason }) => {
            files::print_refused(rt, reason.refusal().number(), line);
            files::say_line(rt, b"depths", line, reason.words());
            Err(Told)
        }
    }
}
