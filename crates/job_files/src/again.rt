// The call of a job, read again up to the place where it goes on.
ghost use Rattle.std.specs.Prelude.{◌≡◌, ◌-◌};
ghost use Rattle.std.specs.Io.{ReadsAtMost};
ghost use Rattle.job.specs.Part.{position};
ghost use Rattle.job_files.specs.Reads.{Reads};

use files::{Told, or_tell};
use job::parts;
use job::parts::Again;
use refusal::Refusal;
use std::fs::File;
use std::io;
use std::os::unix::fs::FileExt;

// Bytes that were read, of a call of which `at` bytes were taken.
fn count(a: Again, at: u64, bytes: &[u8]) -> Again
    requires { Reads at a }
    ensures { Reads at result }
{
    parts::read_again(a, bytes)
}

// The place behind the bytes that were read.
fn place(a: Again, at: u64) -> i64
    requires { Reads at a }
    ensures { result ≡ position (at - a.left) }
{
    parts::position(at - a.left)
}

// Reads at the place behind the bytes that were read.
fn read_at(call: &File, input: &mut [u8], to: i64, a: Again, at: u64) -> io::Result<usize>
    requires { to ≡ position (at - a.left) }
    ensures { ReadsAtMost result input.new }
{
    call.read_at(input, to.cast_unsigned())
}

// One read more.
fn read_more(call: &File, at: u64, a: Again, input: &mut [u8]) -> Again
    requires { Reads at a }
    ensures { Reads at result }
{
    let got = read_at(call, input, place(a, at), a, at);
    let n = got.unwrap_or(0);
    count(a, at, &input[..n])
}

// The bytes of the call that were taken, read again until they are all there or nothing more is read.
pub(crate) fn taken(call: &File, at: u64) -> Again
    ensures { Reads at result }
{
    let mut input = [0u8; 65536];
    let mut a = Again { sum: 0, left: at };
    let mut before = 18446744073709551615u64;
    // No `for`: a read gives any number of bytes.
    while a.left < before {
        before = a.left;
        a = read_more(call, at, a, &mut input);
    }
    a
}

// The call can be read behind the bytes that were read again, or ends there.
pub(crate) fn readable(
    rt: &HostRuntime,
    call: &File,
    at: u64,
    a: Again,
    name: &[u8],
) -> Result<(), Told>
    requires { Reads at a }
{
    let mut next = [0u8; 1];
    or_tell(rt, name, read_at(call, &mut next, place(a, at), a, at))?;
    Ok(())
}

// Another call than the one that the job was begun with.
pub(crate) fn refuse(rt: &HostRuntime, r: Refusal, name: &[u8]) -> Told {
    files::refuse(
        rt,
        r.number(),
        name,
        b"another call than the one that this job was begun with, or shorter: take the right CALL",
    )
}
