// What the program `delays` does: reads a call line by line, and prints the table of its delays with their rules (change request 12). No contract can say what is read or written: each line's row is
// made on lent memory, where it is `delay_step` of crate delay_step.
#![tactic(auto)]

ghost use Rattle.std.specs.Prelude.{◌≡◌, ◌+◌, ◌-◌, ◌≤◌, ◌<◌, ltb, length};
ghost use Rattle.source.specs.Source.{Inside};

use delay_line::ROOM;
use files::{Input, Told};
use line::LONGEST;
use line_step::Progress;
use source::Source;

// As many turns as there can be.
const TURNS: u64 = 18446744073709551615;

// The bytes of the output buffer: rows are written where it has no room for a further one, and before each read.
const OUTPUT: usize = 65536;

// What follows a turn.
#[derive(Clone, Copy, PartialEq, Eq)]
enum Next {
    Go,
    Done,
    // A line is longer than the longest of a call; the last one has no line feed.
    Long,
    Cut,
    // The call could not be read, or a row not written, and the reason was said.
    Failed,
}

// The call that is read.
#[derive(Clone, Copy)]
struct Call<'a> {
    file: &'a Input,
    name: &'a [u8],
}

// Rows that are not written yet.
#[derive(Drop)]
struct Rows {
    bytes: [u8; OUTPUT],
    used: usize,
    ghost within: { used ≤ 65536 },
}

impl Rows {
    // Whether a further row may have no room.
    fn is_full(&self) -> bool
        ensures { result ≡ ltb (65536 - self.now.used) 256 }
    {
        OUTPUT - self.used < ROOM
    }

    // A row behind the others.
    fn push(&mut self, row: &[u8])
        requires { self.old.used + length row.now ≤ 65536 }
    {
        self.used = print::put(row, self.used, &mut self.bytes);
    }

    // All are written, and none is left.
    fn spill(&mut self, rt: &HostRuntime) -> Result<(), Told>
        ensures { self.new.used ≡ 0 }
    {
        let n = self.used;
        self.used = 0;
        let view: &[u8] = &self.bytes;
        files::write(rt, &view[..n])
    }
}

// Where a call is: its bytes at hand, how far it is, the delay that is carried on, and what follows.
#[derive(Clone, Copy)]
struct Place {
    source: Source,
    job: Progress,
    carried: i16,
    next: Next,
}

// What follows where no whole line is at hand: a read, or the end. More bytes without a line feed than the longest line has are no line, whatever follows.
fn following(left: usize, ended: bool) -> Next {
    if LONGEST < left {
        return Next::Long;
    }
    if !ended {
        return Next::Go;
    }
    if left == 0 { Next::Done } else { Next::Cut }
}

impl Place {
    // The rows at hand are written.
    fn spill(&mut self, rt: &HostRuntime, rows: &mut Rows)
        ensures { (self.new.source ≡ self.old.source) × (rows.new.used ≡ 0) }
    {
        if rows.spill(rt).is_err() {
            self.next = Next::Failed;
        }
    }

    // No whole line is at hand: a read, or the end.
    fn lack(&mut self, rt: &HostRuntime, call: Call, input: &mut [u8])
        requires { Inside self.old.source (length input.old) }
        ensures { Inside self.new.source (length input.old) }
    {
        let s = self.source;
        let next = following(s.to - s.from, s.ended);
        self.next = next;
        if next == Next::Go {
            let s = source::fill(rt, call.file, call.name, s, input);
            self.source = s;
            if !s.good {
                self.next = Next::Failed;
            }
        } else if next != Next::Done {
            self.job.code = 9;
        }
    }

    // The line that ends before a place: its row behind the others.
    fn take(&mut self, end: usize, input: &[u8], rows: &mut Rows)
        requires inside { Inside self.old.source (length input.now) × ((self.old.source.from ≤ end) × (end < self.old.source.to)) }
        requires rows_in_bounds { rows.old.used + 256 ≤ 65536 }
        ensures { Inside self.new.source (length input.now) }
    {
        let from = self.source.from;
        let mut row = [0u8; ROOM];
        let step = delay_step::delay_step(&mut self.carried, self.job, &input[from..end], &mut row);
        let view: &[u8] = &row;
        rows.push(&view[0..step.written]);
        self.source = source::used(self.source, end + 1 - from);
        self.job = step.job;
        if step.job.code != 0 {
            self.next = Next::Done;
        }
    }

    // The next line. The rows are written before a read, and where no further one has room.
    fn turn(&mut self, rt: &HostRuntime, call: Call, input: &mut [u8], rows: &mut Rows)
        requires { Inside self.old.source (length input.old) }
        ensures { Inside self.new.source (length input.old) }
    {
        let s = self.source;
        let end = octets::find(input, s.from, s.to, 10);
        let whole = end != s.to;
        if !whole && rows.used == 0 {
            self.lack(rt, call, input);
        } else if !whole || rows.is_full() {
            self.spill(rt, rows);
        } else {
            self.take(end, input, rows);
        }
    }
}

// All lines of a call, whose first frame gets this delay. The rows of the last turns are not written yet.
fn lines(rt: &HostRuntime, call: Call, carried: i16, rows: &mut Rows) -> Place {
    let mut input = [0u8; source::ROOM];
    let mut p = Place {
        source: source::unread(),
        job: call::start(),
        carried,
        next: Next::Go,
    };
    for _ in 0..TURNS {
        p.turn(rt, call, &mut input, rows);
        if p.next != Next::Go {
            break;
        }
    }
    p
}

// The first n bytes of a line on standard output.
fn write(rt: &HostRuntime, line: &[u8; ROOM], n: usize) -> Result<(), Told>
    requires { n ≤ 256 }
{
    let view: &[u8] = line;
    files::write(rt, &view[..n])
}

// The line of a refusal.
fn print_refused(rt: &HostRuntime, code: u32, line: u32) {
    let mut out = [0u8; ROOM];
    let n = delay_line::refused(code, line, &mut out);
    let _ = write(rt, &out, n);
}

// Why a line is refused, in words.
fn why(rt: &HostRuntime, line: u32, code: u32, cut: bool) {
    if cut {
        files::say_line(
            rt,
            b"delays",
            line,
            b"refused (9): the last line has no line feed; it may be cut",
        );
    } else if code == 10 {
        files::say_line(
            rt,
            b"delays",
            line,
            b"refused (10): more than 360,000 frames",
        );
    } else {
        files::say_line(
            rt,
            b"delays",
            line,
            b"refused (9): not a line of a call, as (frame (voice H)), (frame (sid H)), (frame (quiet)) or (frame (lost))",
        );
    }
}

// The end of a table: how many delays each rule has, and the share of carried ones; or its refusal.
fn print_end(rt: &HostRuntime, job: Progress, cut: bool) {
    if job.code != 0 {
        let line = line_step::one_more(job.lines);
        print_refused(rt, job.code, line);
        why(rt, line, job.code, cut);
        return;
    }
    let counts = job.counts;
    let mut out = [0u8; ROOM];
    let n = delay_line::by_rule(counts, &mut out);
    if write(rt, &out, n).is_ok() {
        let m = delay_line::share(counts, &mut out);
        let _ = write(rt, &out, m);
    }
}

// The rows that are not written yet, and the end. Nothing where the call could not be read, or a row not written.
fn finish(rt: &HostRuntime, p: Place, rows: &mut Rows) {
    if p.next != Next::Failed && rows.spill(rt).is_ok() {
        print_end(rt, p.job, p.next == Next::Cut);
    }
}

// The table of a call that is open, whose first frame gets this delay.
pub fn delays(rt: &HostRuntime, from: &Input, name: &[u8], carried: i16) {
    let mut line = [0u8; ROOM];
    let n = delay_line::heading(&mut line);
    if write(rt, &line, n).is_ok() {
        let mut rows = Rows {
            bytes: [0; OUTPUT],
            used: 0,
        };
        let p = lines(rt, Call { file: from, name }, carried, &mut rows);
        finish(rt, p, &mut rows);
    }
}

// Where the tables are refused, before a line is read.
pub fn refuse(rt: &HostRuntime, code: u32) {
    print_refused(rt, code, 0);
}
