// What a job writes, in its order: forms in OUT at their place, OUT synced, the state written aside, synced and renamed. Wherever the program is stopped, the last saved state is there,
// and OUT has at least what it counts; what stands behind is written again, the same bytes.
#![tactic(auto)]

mod disk;

ghost use Rattle.std.specs.Prelude.{◌≡◌, true, IfOk, IfSome};
ghost use Rattle.std.specs.Io.{ReadsAtMost};
ghost use Rattle.job.specs.Part.{position};
ghost use Rattle.job_disk.specs.Disk.{Kept, Between};

use disk::Disk;
pub use disk::{begin, sync_folder};
use files::{Told, or_tell};
use job::parts::{Decoded, ROOM};
use job::{Saved, parts};
use line_step::Progress;
use print::FORM_ROOM;
use std::fs::File;
use std::io;
use std::os::unix::fs::FileExt;

// A job's open call and open OUT, and the names of STATE and OUT.
#[derive(Clone, Copy)]
pub struct Files<'a> {
    pub call: &'a File,
    pub out: &'a File,
    pub state: &'a [u8],
    pub out_name: &'a [u8],
}

// Between two parts: the place in the call, the files, and how many frames may follow.
#[derive(Clone, Copy)]
struct Todo {
    place: Saved,
    disk: Disk,
    left: u32,
}

// A part that was decoded, and the files behind its forms.
#[derive(Clone, Copy)]
struct Done {
    part: Decoded,
    disk: Disk,
}

// Writes a call's last form to OUT behind its first `at` bytes, and to standard output. What stood behind it in OUT is cut off.
fn put_form(rt: &HostRuntime, form: &[u8], at: u64, d: Disk, f: Files<'_>) -> Result<(), Told>
    requires { at ≡ d.written }
{
    let last = disk::put(rt, d, f, form, at)?;
    disk::cut(rt, last, f, last.written)?;
    files::print(rt, form);
    Ok(())
}

// The last form of a call, behind the first `at` bytes of OUT.
fn put_last(
    rt: &HostRuntime,
    job: Progress,
    held: &[u8],
    at: u64,
    d: Disk,
    f: Files<'_>,
) -> Result<(), Told>
    requires { at ≡ d.written }
{
    let mut form = [0u8; FORM_ROOM];
    let n = call::finish(job, held, &mut form);
    put_form(rt, &form[..n], at, d, f)
}

// The last form of a call that ends at this place, when its state is saved.
fn finish(
    rt: &HostRuntime,
    job: Progress,
    held: &[u8],
    p: Saved,
    d: Disk,
    f: Files<'_>,
) -> Result<(), Told>
    requires { (d.good ≡ true) × Kept p d }
{
    put_last(rt, job, held, p.written, d, f)
}

// A line of a part is refused. No state is saved, so that the refusal is found again.
fn refuse(rt: &HostRuntime, p: Saved, code: u32, d: Disk, f: Files<'_>) -> Result<(), Told>
    requires { d.written ≡ p.written }
{
    put_last(rt, parts::progress_of(p, code), b"", p.written, d, f)
}

// Says where the job stopped, when its state is saved.
fn print_saved(rt: &HostRuntime, p: Saved, d: Disk)
    requires { (d.good ≡ true) × Kept p d }
{
    let counts = p.counts;
    let mut form = [0u8; FORM_ROOM];
    let n = print::saved(counts, &mut form);
    files::print(rt, &form[..n]);
}

// As many frames are done as were asked for: OUT ends with the last of them.
fn stop(rt: &HostRuntime, p: Saved, d: Disk, f: Files<'_>) -> Result<(), Told>
    requires { (d.good ≡ true) × Kept p d }
{
    disk::cut(rt, d, f, p.written)?;
    print_saved(rt, p, d);
    Ok(())
}

// Behind a part of frames: the state is saved where as many frames are done as were asked for, so that none is left and the job ends, or where it is due.
fn behind(
    rt: &HostRuntime,
    b: &[i16; 234],
    p: Saved,
    d: Disk,
    left: u32,
    f: Files<'_>,
) -> Result<Todo, Told>
    requires { d.written ≡ p.written }
    ensures { IfOk result Between }
{
    if left == 0 {
        let k = disk::keep(rt, d, b, p, f)?;
        stop(rt, p, k, f)?;
        return Ok(Todo {
            place: p,
            disk: k,
            left: 0,
        });
    }
    if job_step::due(p, d.saved) {
        let k = disk::keep(rt, d, b, p, f)?;
        return Ok(Todo {
            place: p,
            disk: k,
            left,
        });
    }
    Ok(Todo {
        place: p,
        disk: d,
        left,
    })
}

// The call ends at the place, or the line there is refused: the state is saved, then the last form is written.
fn last(
    rt: &HostRuntime,
    b: &[i16; 234],
    r: Todo,
    job: Progress,
    held: &[u8],
    f: Files<'_>,
) -> Result<(), Told>
    requires { Between r }
{
    let k = disk::keep(rt, r.disk, b, r.place, f)?;
    finish(rt, job, held, r.place, k, f)
}

// How many bytes of the call stand behind these, 1 at most; with a message where it can't be read.
fn more_of(rt: &HostRuntime, p: Saved, held: &[u8], call: &File) -> Result<usize, Told> {
    let mut next = [0u8; 1];
    let behind = std::num::wrapping_add_u64(p.at, held.len() as u64);
    or_tell(
        rt,
        b"CALL",
        call.read_at(&mut next, parts::position(behind).cast_unsigned()),
    )
}

// No whole line stands at the place: how far the call is where a line is too long or the call ends there; none where there are bytes behind these.
fn at_end(rt: &HostRuntime, p: Saved, held: &[u8], call: &File) -> Result<Option<Progress>, Told> {
    let job = call::overlong(parts::progress_of(p, 0), held);
    if job.code != 0 || more_of(rt, p, held, call)? == 0 {
        return Ok(Some(job));
    }
    Ok(None)
}

// The job ends there, or goes on where the text does.
fn end(
    rt: &HostRuntime,
    b: &[i16; 234],
    r: Todo,
    held: &[u8],
    f: Files<'_>,
) -> Result<Option<Todo>, Told>
    requires { Between r }
    ensures { IfOk result (λ r. IfSome r Between) }
{
    let Some(job) = at_end(rt, r.place, held, f.call)? else {
        return Ok(Some(r));
    };
    last(rt, b, r, job, held, f)?;
    Ok(None)
}

// Decodes a part of the text and writes its forms.
fn decode(
    rt: &HostRuntime,
    t: &[i16; 1880],
    b: &mut [i16; 234],
    r: Todo,
    f: Files<'_>,
    input: &[u8],
    forms: &mut [u8],
) -> Result<Done, Told>
    requires { Between r }
    ensures { IfOk result (λ done. done.disk.written ≡ done.part.place.written) }
{
    let part = parts::part(t, b, r.place, r.left, input, forms);
    let written = part.written;
    let disk = disk::put(rt, r.disk, f, &forms[..written], r.place.written)?;
    Ok(Done { part, disk })
}

// Behind a part: no more where a line is refused.
fn settle(
    rt: &HostRuntime,
    b: &[i16; 234],
    r: Todo,
    done: Done,
    held: &[u8],
    f: Files<'_>,
) -> Result<Option<Todo>, Told>
    requires { Between r × (done.disk.written ≡ done.part.place.written) }
    ensures { IfOk result (λ r. IfSome r Between) }
{
    let part = done.part;
    if part.code != 0 {
        refuse(rt, part.place, part.code, done.disk, f)?;
        return Ok(None);
    }
    if 0 < part.written {
        let next = behind(rt, b, part.place, done.disk, part.left, f)?;
        return Ok(if next.left == 0 { None } else { Some(next) });
    }
    end(rt, b, r, held, f)
}

// The call's text from a place on.
fn read_at(call: &File, input: &mut [u8], to: i64, p: Saved) -> io::Result<usize>
    requires { to ≡ position p.at }
    ensures { ReadsAtMost result input.new }
{
    call.read_at(input, to.cast_unsigned())
}

// The same: how many bytes; with a message where it can't be read.
fn read_on(rt: &HostRuntime, call: &File, p: Saved, input: &mut [u8]) -> Result<usize, Told>
    ensures { ReadsAtMost result input.new }
{
    or_tell(rt, b"CALL", read_at(call, input, parts::position(p.at), p))
}

// One part: the text from the place on is read and decoded. None where the job doesn't go on.
fn step(
    rt: &HostRuntime,
    t: &[i16; 1880],
    b: &mut [i16; 234],
    r: Todo,
    f: Files<'_>,
    input: &mut [u8],
    forms: &mut [u8],
) -> Result<Option<Todo>, Told>
    requires { Between r }
    ensures { IfOk result (λ r. IfSome r Between) }
{
    let n = read_on(rt, f.call, r.place, input)?;
    let held = &input[..n];
    let done = decode(rt, t, b, r, f, held, forms)?;
    settle(rt, b, r, done, held, f)
}

// Goes on with a job whose state is saved, for at most so many frames, from the open call to the open OUT, which has what the state counts. There are fewer than 2^32 parts: each has a
// frame, but for those that find the text longer than it was just before.
pub fn run(
    rt: &HostRuntime,
    t: &[i16; 1880],
    b: &mut [i16; 234],
    p: Saved,
    most: u32,
    f: Files<'_>,
) {
    let d = disk::at(p);
    if most == 0 {
        print_saved(rt, p, d);
        return;
    }
    let mut input = [0u8; 65536];
    let mut forms = [0u8; ROOM];
    let mut r = Todo {
        place: p,
        disk: d,
        left: most,
    };
    for _ in 0..u32::MAX {
        let Ok(Some(next)) = step(rt, t, b, r, f, &mut input, &mut forms) else {
            break;
        };
        r = next;
    }
}
