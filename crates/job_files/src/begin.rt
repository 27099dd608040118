// The state file, and what an earlier run may have left beside it.
ghost use Rattle.std.specs.Io.{ReadsAtMost};

use crate::names::Named;
use files::{Told, or_tell};
use job::Saved;
use refusal::Refusal;
use std::fs::File;
use std::io;
use std::io::{ErrorKind, Read};

// One byte more than a state file has, so that a longer one is seen to be longer.
const MORE: usize = job::LENGTH + 1;

// Where the job goes on, and whether it is a new one.
#[derive(Clone, Copy)]
pub(crate) struct Begun {
    pub place: Saved,
    pub fresh: bool,
}

// Why a state file can't be used.
fn why(r: Refusal) -> &'static [u8] {
    match r {
        Refusal::StateLength => {
            b"not 536 bytes, so no state file, one that was cut short, or one of an older form (488, 492, 516): take the right one, go on with the version that saved it, or move it away and begin anew"
        }
        Refusal::Damaged => {
            b"damaged, its check sum or its numbers don't fit: take another copy, or move it away and begin anew"
        }
        Refusal::OtherVersion => {
            b"saved by another version: go on with that one, or move it away and begin anew"
        }
        Refusal::OtherTables => {
            b"begun with other tables: name the table file that it was begun with"
        }
        _ => b"its predictor or its delay is out of range: move it away and begin anew",
    }
}

// The bytes of a state file, for tables of this CRC-32.
fn read(
    rt: &HostRuntime,
    name: &[u8],
    bytes: &[u8],
    tables: u32,
    b: &mut [i16; 234],
) -> Result<Begun, Told> {
    match job::read(bytes, tables, b) {
        Ok(place) => Ok(Begun {
            place,
            fresh: false,
        }),
        Err(r) => Err(files::refuse(rt, r.number(), name, why(r))),
    }
}

// One read of an open file: how many bytes stand at the front of `bytes`.
fn front(file: File, bytes: &mut [u8]) -> io::Result<usize>
    ensures { ReadsAtMost result bytes.new }
{
    let mut file = file;
    file.read(bytes)
}

// The open state file. It is a file, so one read gets all of it; a read that fails is no short file.
fn saved(
    rt: &HostRuntime,
    from: File,
    name: &[u8],
    tables: u32,
    b: &mut [i16; 234],
) -> Result<Begun, Told> {
    let mut bytes = [0u8; MORE];
    let n = or_tell(rt, name, front(from, &mut bytes))?;
    read(rt, name, &bytes[..n], tables, b)
}

// The state file, with its block; where there is none, a new job.
pub(crate) fn begin(
    rt: &HostRuntime,
    name: &[u8],
    tables: u32,
    b: &mut [i16; 234],
) -> Result<Begun, Told> {
    match files::open(rt, name) {
        Ok(from) => saved(rt, from, name, tables, b),
        Err(why) if why.kind() == ErrorKind::NotFound => Ok(Begun {
            place: job::start(tables),
            fresh: true,
        }),
        Err(why) => {
            files::fail(rt, name, why);
            Err(Told)
        }
    }
}

fn refuse_left(rt: &HostRuntime, name: &[u8]) -> Result<(), Told> {
    Err(files::refuse(
        rt,
        Refusal::Names.number(),
        name,
        b"not left by this program: move it away",
    ))
}

// A file of this length, open, is one that this program may have left.
fn own(rt: &HostRuntime, from: File, name: &[u8], length: u64) -> Result<(), Told> {
    let mut bytes = [0u8; 4];
    let n = or_tell(rt, name, front(from, &mut bytes))?;
    if !job_step::own_state(&bytes[..n], length) || (n < 4 && (n as u64) < length) {
        return refuse_left(rt, name);
    }
    Ok(())
}

// STATE.new, where the next state is written aside, is missing or was left there by this program. It is opened only where it is a file, since a pipe would wait.
pub(crate) fn left(rt: &HostRuntime, aside: Named<'_>) -> Result<(), Told> {
    let name = aside.name;
    if files::is_link(rt, name) {
        return refuse_left(rt, name);
    }
    let Ok(known) = aside.seen else {
        return Ok(());
    };
    if !known.regular {
        return refuse_left(rt, name);
    }
    let from = or_tell(rt, name, files::open(rt, name))?;
    own(rt, from, name, known.length)
}
