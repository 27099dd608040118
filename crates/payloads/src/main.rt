// The program `payloads [PAYLOADS]`: RTP payloads in hexadecimal, one a line, from standard input or a file, to the call that `decode` takes, on standard output. What is printed for a line
// is `payload_line` of payload_line.specs.PayloadLine. No contract can say what is read or written, so the work is done on lent memory, by crate payload_line.
#![tactic(auto)]

ghost use Rattle.std.specs.Prelude.{◌≤◌, length, IfSome};

use files::{Input, Told};
use payload_line::{LONGEST, ROOM};
use refusal::Refusal;

const USAGE: [u8; 27] = *b"usage: payloads [PAYLOADS]\n";

// The bytes of the input buffer: the longest line, with its line feed.
const INPUT: usize = LONGEST + 1;

// As many turns as there can be.
const MOST: u64 = 18446744073709551615;

// Where the program is: the first byte of the input that is not used yet and the one behind the last, and the lines that were taken.
#[derive(Clone, Copy)]
struct Place {
    from: usize,
    to: usize,
    lines: u32,
}

// What is left is no line: its refusal.
fn refuse(rt: &HostRuntime, lines: u32, what: &[u8]) {
    let number = line_step::one_more(lines);
    files::print_refused(rt, Refusal::LineForm.number(), number);
    files::say_line(rt, b"payloads", number, what);
}

// One line, without its line feed.
fn take(rt: &HostRuntime, text: &[u8], number: u32, out: &mut [u8; ROOM]) -> Result<(), Told> {
    let printed = payload_line::payload_line(text, number, out);
    if printed.code == 9 {
        files::say_line(
            rt,
            b"payloads",
            number,
            b"refused (9): neither the hexadecimal digits, 0-9 and a-f, of whole bytes nor a line of a call",
        );
    }
    if printed.code == 12 {
        files::say_line(
            rt,
            b"payloads",
            number,
            b"refused (12): the payload's length leaves a remainder other than 0 or 2 by ten",
        );
    }
    let n = printed.written;
    files::write(rt, &out[..n])
}

// One read behind the bytes that are not used, which move to the front. None at the end, and where what is left is no line or can't be read.
fn fill(rt: &HostRuntime, source: &Input, name: &[u8], p: Place, input: &mut [u8]) -> Option<Place>
    requires { length input.old ≤ 131071 }
    ensures { IfSome result (λ q. (q.from ≤ q.to) × (q.to ≤ 131071)) }
{
    let held = call::keep(input, p.from, p.to);
    if held == input.len() {
        refuse(
            rt,
            p.lines,
            b"refused (9): a longer line than that of a payload of 65,535 bytes; nothing behind it is read",
        );
        return None;
    }
    let bytes = files::or_tell(rt, name, source.read(&mut input[held..])).ok()?;
    if bytes == 0 {
        if held != 0 {
            refuse(
                rt,
                p.lines,
                b"refused (9): the last line has no line feed; it may be cut",
            );
        }
        return None;
    }
    Some(Place {
        from: 0,
        to: held + bytes,
        lines: p.lines,
    })
}

// The next line, or a read where there is no whole one. None where no further one follows.
fn turn(
    rt: &HostRuntime,
    source: &Input,
    name: &[u8],
    p: Place,
    input: &mut [u8],
    out: &mut [u8; ROOM],
) -> Option<Place>
    requires { (p.from ≤ p.to) × ((p.to ≤ length input.old) × (length input.old ≤ 131071)) }
    ensures { IfSome result (λ q. (q.from ≤ q.to) × (q.to ≤ 131071)) }
{
    let from = p.from;
    let end = octets::find(input, from, p.to, 10);
    if end == p.to {
        return fill(rt, source, name, p, input);
    }
    let number = line_step::one_more(p.lines);
    take(rt, &input[from..end], number, out).ok()?;
    Some(Place {
        from: end + 1,
        to: p.to,
        lines: number,
    })
}

// A whole text.
fn convert(rt: &HostRuntime, source: &Input, name: &[u8]) {
    let mut input = [0u8; INPUT];
    let mut out = [0u8; ROOM];
    let mut p = Place {
        from: 0,
        to: 0,
        lines: 0,
    };
    for _ in 0..MOST {
        let Some(next) = turn(rt, source, name, p, &mut input, &mut out) else {
            break;
        };
        p = next;
    }
}

fn main(rt: HostRuntime) {
    let a = files::asked(&rt, 0, 1);
    let usage = USAGE;
    if files::no_tables(&rt, a, b"payloads", &usage) {
        return;
    }
    let done = files::answered(
        &rt,
        a,
        b"payloads",
        &usage,
        b"Turns RTP payloads of G.729 into the call that decode takes: a payload a line, in hexadecimal digits 0-9 and a-f, becomes a line for each of its frames, ten bytes of voice each, then at most a SID of two. A line that is one of the four forms of a call is printed as it is.\n\n  payloads <monday.payloads >monday.call\n\n  PAYLOADS    a file or a named pipe; else they are read from standard input\n  --help      this text\n  --version   the version\n\nWhy a line is refused is said on standard error. In the call (refused (code C) (line L)) stands in its place, which decode refuses.\n",
    );
    if done {
        return;
    }
    let mut room = [0u8; 4096];
    let name = files::argument(&rt, a.first, b"standard input", &mut room);
    let source = files::input(
        &rt,
        a.first.is_some(),
        name,
        b"payloads",
        b"reading payloads from the terminal; end them with Ctrl-D (payloads --help tells more)",
    );
    if let Ok(source) = source {
        convert(&rt, &source, name);
    }
}
