// The decoding program `decode [--tables FILE] [CALL]` (01, "The call text and the program"): tables from a file, a call from standard input or a file, samples and the
// last form to standard output. What is printed is `output` of call.specs.Call. No contract can say what is read or written, so the work is done on lent memory, by
// crate read_step; whole_call.specs.Reads has what its reads print together.
#![tactic(auto)]

ghost use Rattle.std.specs.Prelude.{◌≡◌, ◌&&◌, ◌+◌, ◌≤◌, eqb, ltb, length, take, IfOk};
ghost use Rattle.read_step.specs.Reading.{input_room};

use files::{Input, Told};
use options::Asked;
use print::FORM_ROOM;
use read_step::{INPUT, OUTPUT, Reading};

const USAGE: [u8; 37] = *b"usage: decode [--tables FILE] [CALL]\n";

// As many reads as there can be.
const MOST: u32 = 4294967295;

// Where the call stands behind a read, and whether a further read follows.
#[derive(Clone, Copy)]
struct Place {
    call: Reading,
    more: bool,
}

// Reads behind the bytes held, which stay as they are; how many bytes, 0 at the end. Where that fails, a message on standard error.
fn read(
    rt: &HostRuntime,
    from: &Input,
    name: &[u8],
    held: usize,
    input: &mut [u8],
) -> Result<usize, Told>
    requires { held ≤ length input.old }
    ensures kept { take held input.new ≡ take held input.old }
    ensures within { IfOk result (λ bytes. held + bytes ≤ length input.old) }
{
    files::or_tell(rt, name, from.read(&mut input[held..]))
}

// Whether a further read follows: while the reads give bytes, however few, and no line is refused.
fn goes_on(bytes: usize, code: u32) -> bool
    ensures { result ≡ ltb 0 bytes && eqb code 0 }
{
    (0 < bytes) & (code == 0)
}

// One read of the call, and what its lines print. None follows the end, a refusal or a failure.
fn turn(
    rt: &HostRuntime,
    t: &[i16; 1880],
    b: &mut [i16; 234],
    from: Reading,
    source: &Input,
    name: &[u8],
    input: &mut [u8; INPUT],
    out: &mut [u8; OUTPUT],
) -> Result<Place, Told>
    requires { from.held ≤ input_room }
    ensures { IfOk result (λ p. p.call.held ≤ input_room) }
{
    let bytes = read(rt, source, name, from.held, input)?;
    let call = read_step::read_step(t, b, from, bytes, input, out);
    files::write(rt, &out[..call.written])?;
    Ok(Place {
        call,
        more: goes_on(bytes, call.job.code),
    })
}

// The last form of a call.
fn end(rt: &HostRuntime, call: Reading, input: &[u8; INPUT]) {
    let mut form = [0u8; FORM_ROOM];
    let n = read_step::finish(call, input, &mut form);
    files::print(rt, &form[..n]);
}

// A whole call. Each read but the last gives at least one byte, of which Count and the longest line limit the number, so there are fewer than MOST. There is no last form
// where the call could not be read, or standard output not written.
fn decode(
    rt: &HostRuntime,
    t: &[i16; 1880],
    b: &mut [i16; 234],
    source: &Input,
    name: &[u8],
) -> Result<(), Told> {
    let mut input = [0u8; INPUT];
    let mut out = [0u8; OUTPUT];
    let mut call = read_step::start();
    for _ in 0..MOST {
        let p = turn(rt, t, b, call, source, name, &mut input, &mut out)?;
        call = p.call;
        if !p.more {
            break;
        }
    }
    end(rt, call, &input);
    Ok(())
}

// The tables are checked before the call is opened.
fn run(rt: &HostRuntime, a: Asked) -> Result<(), Told> {
    let mut t = [0i16; 1880];
    let mut b = [0i16; 234];
    let mut room = [0u8; 4096];
    let tables = files::argument(rt, a.tables, b"tables.g729", &mut room);
    let checked = files::tables(rt, tables, &mut t, &mut b);
    if checked.code != 0 {
        files::print_refused(rt, checked.code, 0);
        return Err(Told);
    }
    let mut room = [0u8; 4096];
    let name = files::argument(rt, a.first, b"standard input", &mut room);
    let from = files::input(
        rt,
        a.first.is_some(),
        name,
        b"decode",
        b"reading a call from the terminal; end it with Ctrl-D (decode --help tells more)",
    )?;
    decode(rt, &t, &mut b, &from, name)
}

fn main(rt: HostRuntime) {
    let a = files::asked(&rt, 0, 1);
    let usage = USAGE;
    let done = files::answered(
        &rt,
        a,
        b"decode",
        &usage,
        b"Decodes a call, a frame a line, to samples on standard output: a line for each frame, then its total, or the code and the line of its refusal.\n\n  decode <monday.call >monday.samples\n  decode --tables site/tables.g729 monday.call >monday.samples\n\n  CALL            a file or a named pipe; else the call is read from standard input\n  --tables FILE   the tables, 3,760 bytes; else tables.g729 of this folder\n  --help          this text\n  --version       the version\n",
    );
    if done {
        return;
    }
    let _ = run(&rt, a);
}
