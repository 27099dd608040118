// What the programs share: the words of the command line, messages, the table file, and which file a name means. No contract can say what is read or written; what is
// decided is decided on slices (`options`, `call`).
#![tactic(auto)]

ghost use Rattle.std.specs.Prelude.{◌≡◌, ◌≤◌, ◌<◌, length, IfOk, IfSome};
ghost use Rattle.std.specs.Io.{ReadsAtMost};
ghost use Rattle.crc32.specs.Crc32.{crc32};
ghost use Rattle.call.specs.Chunk.{Begun, begin};

mod path;
mod reading;
mod writing;

use options::{Asked, What};
pub use path::{Known, Seen, is_link, look, text};
use print::FORM_ROOM;
pub use reading::{Input, open, opened};
use std::env::FillError;
use std::fmt::InlineText;
use std::io;
use std::io::{IsTerminal, Print};
use std::os::fd::{AsRawFd, IntoRawFd};
use std::rt::Env;
pub use writing::{create, remove, to_start, write_all};

// One byte more than the tables have, so that a longer file is noticed.
const MORE: usize = 3761;

// The number of standard error, the highest of the standard descriptors.
const STDERR: i32 = 2;

// Of a table file: 0, or the number of its refusal; and its CRC-32.
#[derive(Drop)]
pub struct Checked {
    pub code: u32,
    pub sum: u32,
}

// A failure whose reason is on standard error.
#[derive(Clone, Copy, Debug, PartialEq, Eq)]
pub struct Told;

// Bytes on standard error.
pub fn tell(rt: &HostRuntime, text: &[u8]) {
    let _ = rt.stderr().write_all(text);
}

// A number on standard error, in decimal.
pub fn tell_number(rt: &HostRuntime, n: u64) {
    let _ = rt.stderr().print(n);
}

// A line on standard error.
pub fn say(rt: &HostRuntime, name: &[u8], what: &[u8]) {
    tell(rt, name);
    tell(rt, b": ");
    tell(rt, what);
    tell(rt, b"\n");
}

// A line on standard error on a line of what a program reads.
pub fn say_line(rt: &HostRuntime, program: &[u8], line: u32, what: &[u8]) {
    tell(rt, program);
    tell(rt, b": line ");
    tell_number(rt, line as u64);
    tell(rt, b": ");
    tell(rt, what);
    tell(rt, b"\n");
}

// A line on standard error: what failed, and why, in the system's words alone.
pub fn fail(rt: &HostRuntime, what: &[u8], why: io::Error) {
    let shown = InlineText::<256>::of(why);
    let all = shown.as_str();
    let words = all.split_once(" (os error ").map_or(all, |parts| parts.0);
    say(rt, what, words.as_bytes());
}

// What the system answers, with a message where it fails.
pub fn or_tell<T>(rt: &HostRuntime, what: &[u8], answer: io::Result<T>) -> Result<T, Told>
    ensures { IfOk result (λ x. answer ≡ Ok x) }
{
    match answer {
        Ok(x) => Ok(x),
        Err(e) => {
            fail(rt, what, e);
            Err(Told)
        }
    }
}

// Writes to standard output, with a message where not all could be written.
pub fn write(rt: &HostRuntime, text: &[u8]) -> Result<(), Told> {
    or_tell(rt, b"standard output", rt.write_all(text))
}

// What a program reads: the file of this name, or standard input, which may be a terminal: then it is said what is awaited. With a message where the file can't be opened.
pub fn input(
    rt: &HostRuntime,
    given: bool,
    name: &[u8],
    program: &[u8],
    awaited: &[u8],
) -> Result<Input, Told> {
    if given {
        return opened(rt, name);
    }
    let stdin = rt.stdin();
    if stdin.is_terminal() {
        say(rt, program, awaited);
    }
    Ok(Input::Standard(stdin))
}

// A form on standard output.
pub fn print(rt: &HostRuntime, form: &[u8]) {
    let _ = write(rt, form);
}

// The form of a refusal on standard output.
pub fn print_refused(rt: &HostRuntime, code: u32, line: u32) {
    let mut form = [0u8; FORM_ROOM];
    let n = print::refused(code, line, &mut form);
    print(rt, &form[..n]);
}

// A refusal before the first line: its form on standard output, and why on standard error.
pub fn refuse(rt: &HostRuntime, code: u32, name: &[u8], what: &[u8]) -> Told {
    print_refused(rt, code, 0);
    say(rt, name, what);
    Told
}

// Takes the number of a standard descriptor that is closed. What takes it can't be read or written. With a message where nothing can be opened.
fn fill(rt: &HostRuntime) -> Result<(), Told> {
    let file = or_tell(rt, b"/", open(rt, b"/"))?;
    if file.as_raw_fd() <= STDERR {
        file.into_raw_fd();
    }
    Ok(())
}

// All three standard descriptors are taken, so that no file that is opened for writing gets the number of one and has messages written over its bytes.
pub fn standard_open(rt: &HostRuntime) -> Result<(), Told> {
    for _ in 0..3 {
        fill(rt)?;
    }
    Ok(())
}

// Argument i, in the room that is lent: empty where it does not fit; none where there is no such argument.
pub fn arg<'a>(rt: &HostRuntime, i: usize, room: &'a mut [u8]) -> Option<&'a [u8]>
    ensures { IfSome result (λ word. length word.now ≤ length room.old) }
{
    match rt.arg(i, room) {
        Ok(n) => Some(&room[..n]),
        Err(FillError::TooLong) => Some(b""),
        Err(FillError::NotPresent) => None,
    }
}

// What the command line asks for, of a program that takes `least` to `most` operands. A word that is too long for the buffer reads as empty, which `options` refuses.
pub fn asked(rt: &HostRuntime, least: usize, most: usize) -> Asked {
    let mut a = Asked::none();
    for i in 1..usize::MAX {
        let mut room = [0u8; 4096];
        let Some(word) = arg(rt, i, &mut room) else {
            break;
        };
        a = a.next(most, i, word);
    }
    a.ended(least)
}

// The argument of this number, in the room that is lent, or the default where none is given; empty where there is no such argument, or where what is to be handed back does
// not fit the room.
pub fn argument<'a>(
    rt: &HostRuntime,
    i: Option<usize>,
    default: &'a [u8],
    room: &'a mut [u8],
) -> &'a [u8]
    ensures { length result.now ≤ length room.old }
{
    match i {
        Some(i) => arg(rt, i, room).unwrap_or(b""),
        None if default.len() <= room.len() => default,
        None => b"",
    }
}

// Why a line can't be taken, in words.
fn why(rt: &HostRuntime, program: &[u8], a: Asked) {
    match a.what {
        What::File => say(rt, program, b"--tables needs a file"),
        What::Twice => say(rt, program, b"--tables is given twice"),
        What::Unknown => {
            let mut room = [0u8; 4096];
            let word = argument(rt, a.word, b"", &mut room);
            tell(rt, program);
            tell(rt, b": ");
            say(rt, word, b"no such option");
        }
        What::Many => say(rt, program, b"too many arguments"),
        What::Few => say(rt, program, b"too few arguments"),
        _ => say(
            rt,
            program,
            b"an argument is empty or has more than 4,095 bytes",
        ),
    }
}

// Answers a line that asks for no run: help (the usage and more) or the version on standard output, or why it can't be taken and the usage on standard error. False, and
// nothing done, where it asks for a run.
pub fn answered(rt: &HostRuntime, a: Asked, program: &[u8], usage: &[u8], more: &[u8]) -> bool {
    match a.what {
        What::Run => return false,
        What::Help => {
            let _ = write(rt, usage).and_then(|()| write(rt, more));
        }
        What::Version => print(rt, b"holdamek 0.10.0\n"),
        _ => {
            why(rt, program, a);
            tell(rt, usage);
        }
    }
    true
}

// Whether tables are asked for, of a program that has none: that is refused as any other unknown option.
pub fn no_tables(rt: &HostRuntime, a: Asked, program: &[u8], usage: &[u8]) -> bool {
    if a.tables.is_none() && !matches!(a.what, What::File | What::Twice) {
        return false;
    }
    tell(rt, program);
    tell(rt, b": ");
    say(rt, b"--tables", b"no such option");
    tell(rt, usage);
    true
}

// The bytes of an open file at the front of `file`, which has room for more than the tables; how many they are. A read behind them tells an error from the end.
fn load(from: &Input, file: &mut [u8]) -> io::Result<usize>
    requires { 3760 < length file.old }
    ensures { ReadsAtMost result file.new }
{
    let length = from.read_full(file);
    let mut rest = [0u8; 1];
    from.read(&mut rest)?;
    Ok(length)
}

// The same of the file of this name.
fn load_file(rt: &HostRuntime, name: &[u8], file: &mut [u8]) -> io::Result<usize>
    requires { 3760 < length file.old }
    ensures { ReadsAtMost result file.new }
{
    load(&Input::Named(open(rt, name)?), file)
}

// The tables and the fresh state of a table file's bytes, and their CRC-32. A refusal leaves both blocks as they were.
fn begin(bytes: &[u8], t: &mut [i16; 1880], b: &mut [i16; 234]) -> Checked
    ensures b_after { Begun.begun result.code t.new b.new ≡ begin bytes.now t.old b.old }
    ensures sum_value { result.sum ≡ crc32 bytes.now }
{
    let code = refusal::code(call::begin(bytes, t, b));
    let sum = crc32::crc32(bytes);
    Checked { code, sum }
}

// Reads the tables, and makes the fresh state. Where they are refused the reason is on standard error, and the form is the caller's to print.
pub fn tables(rt: &HostRuntime, name: &[u8], t: &mut [i16; 1880], b: &mut [i16; 234]) -> Checked {
    let mut file = [0u8; MORE];
    let loaded = or_tell(rt, name, load_file(rt, name, &mut file));
    let n = loaded.unwrap_or(0);
    let checked = begin(&file[..n], t, b);
    if checked.code == 1 && loaded.is_ok() {
        say(rt, name, b"not 3,760 bytes of tables");
    }
    if checked.code == 2 {
        say(rt, name, b"the initial delay is not in 19..144");
    }
    checked
}
