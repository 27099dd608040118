// The system calls by which a job writes, each with an account of the files, `Disk`: no contract can say what a call does, but each says what its arguments have to be.
ghost use Rattle.std.specs.Prelude.{◌≡◌, ◌+◌, true, length, IfOk};
ghost use Rattle.job.specs.Job.{pack};
ghost use Rattle.job.specs.Part.{position};
ghost use Rattle.job_disk.specs.Disk.{Put, Synced, Kept, OnDisk};

use crate::Files;
use files::{Told, or_tell};
use job::{LENGTH, Saved, parts};
use std::fs::File;
use std::os::unix::fs::FileExt;
use std::{fs, io};

// How many bytes of OUT should be written by now, how many of them should be on the disk, and how many lines the saved state should have taken; good where all that is written is on the
// disk, as the system said. There is no account behind a call that failed, so no state is saved behind a failure.
#[derive(Clone, Copy)]
pub(crate) struct Disk {
    pub written: u64,
    pub synced: u64,
    pub saved: u32,
    pub good: bool,
}

// The files of a job whose state was saved at this place.
pub(crate) fn at(p: Saved) -> Disk
    ensures kept { Kept p result }
    ensures on_disk { OnDisk p result }
{
    Disk {
        written: p.written,
        synced: p.written,
        saved: p.lines,
        good: true,
    }
}

// Writes forms at a place of OUT: behind all that is written.
fn write_at(d: Disk, out: &File, forms: &[u8], to: i64, at: u64) -> io::Result<usize>
    requires { (to ≡ position at) × (at ≡ d.written) }
{
    out.write_at(forms, to.cast_unsigned())
}

// The same, with a message where not all could be written.
fn write_all(rt: &HostRuntime, d: Disk, f: Files<'_>, forms: &[u8], at: u64) -> Result<(), Told>
    requires { at ≡ d.written }
{
    let answer = write_at(d, f.out, forms, parts::position(at), at);
    let n = or_tell(rt, f.out_name, answer)?;
    if n < forms.len() {
        files::say(
            rt,
            f.out_name,
            b"not all could be written; is the disk full?",
        );
        return Err(Told);
    }
    Ok(())
}

// Writes forms behind the first `at` bytes of OUT.
pub(crate) fn put(
    rt: &HostRuntime,
    d: Disk,
    f: Files<'_>,
    forms: &[u8],
    at: u64,
) -> Result<Disk, Told>
    requires { at ≡ d.written }
    ensures { IfOk result (λ r. Put d (length forms.now) r) }
{
    write_all(rt, d, f, forms, at)?;
    Ok(Disk {
        written: std::num::wrapping_add_u64(at, forms.len() as u64),
        good: false,
        ..d
    })
}

// Waits until all that was written to a file is on the disk.
fn flush(rt: &HostRuntime, file: &File, name: &[u8]) -> Result<(), Told> {
    or_tell(rt, name, file.sync_all())
}

// The same of OUT.
fn sync(rt: &HostRuntime, d: Disk, f: Files<'_>) -> Result<Disk, Told>
    ensures { IfOk result (λ r. Synced d r) }
{
    flush(rt, f.out, f.out_name)?;
    Ok(Disk {
        synced: d.written,
        good: true,
        ..d
    })
}

// Cuts OUT off: behind all that is written.
fn cut_at(d: Disk, out: &File, to: i64, at: u64) -> io::Result<()>
    requires { (to ≡ position at) × (at ≡ d.written) }
{
    out.set_len(to.cast_unsigned())
}

// Cuts OUT behind its first `at` bytes, and waits until it is on the disk.
pub(crate) fn cut(rt: &HostRuntime, d: Disk, f: Files<'_>, at: u64) -> Result<(), Told>
    requires { at ≡ d.written }
{
    or_tell(rt, f.out_name, cut_at(d, f.out, parts::position(at), at))?;
    flush(rt, f.out, f.out_name)
}

// Waits until the names in a file's folder are on the disk. Not every file system can do that, so there is no message.
pub fn sync_folder(rt: &HostRuntime, name: &[u8]) {
    let n = job::names::folder(name);
    let folder = if n == 0 {
        files::open(rt, b".")
    } else {
        files::open(rt, &name[0..n])
    };
    if let Ok(folder) = folder {
        let _ = folder.sync_all();
    }
}

// Opens a file for writing, emptied or made.
fn overwrite(rt: &HostRuntime, name: &[u8]) -> io::Result<File> {
    File::create(rt, files::text(name)?)
}

// Writes all of the file of this name and waits until it is on the disk.
fn whole(rt: &HostRuntime, name: &[u8], bytes: &[u8]) -> Result<(), Told> {
    let file = or_tell(rt, name, overwrite(rt, name))?;
    or_tell(rt, name, files::write_all(&file, bytes))?;
    flush(rt, &file, name)
}

fn rename(rt: &HostRuntime, from: &[u8], to: &[u8]) -> io::Result<()> {
    fs::rename(rt, files::text(from)?, files::text(to)?)
}

// The file takes the place of the old state: it is that of this block and place, whose forms are on the disk.
fn replace(
    rt: &HostRuntime,
    state: &[u8],
    file: &[u8; LENGTH],
    b: &[i16; 234],
    p: Saved,
    d: Disk,
) -> Result<(), Told>
    requires { (file.now ≡ pack b.now p) × OnDisk p d }
{
    let mut buffer = [0u8; 4096];
    let Some(n) = job::names::aside(state, &mut buffer) else {
        files::say(rt, state, b"the name is too long");
        return Err(Told);
    };
    let aside = &buffer[0..n];
    whole(rt, aside, file)?;
    or_tell(rt, state, rename(rt, aside, state))
}

// The new state takes the place of the old one. With a message where it could not be written; the old one is then as it was.
fn save(rt: &HostRuntime, state: &[u8], b: &[i16; 234], p: Saved, d: Disk) -> Result<(), Told>
    requires { OnDisk p d }
{
    let file = job::pack(b, p);
    replace(rt, state, &file, b, p, d)
}

// Saves the state of a new job with tables of this CRC-32, before anything is written to OUT. With a message where it could not be written.
pub fn begin(rt: &HostRuntime, state: &[u8], b: &[i16; 234], tables: u32) -> Result<(), Told> {
    let p = job::start(tables);
    save(rt, state, b, p, at(p))
}

// Saves the state at a place whose forms are on the disk.
fn save_synced(
    rt: &HostRuntime,
    state: &[u8],
    b: &[i16; 234],
    p: Saved,
    d: Disk,
) -> Result<Disk, Told>
    requires { OnDisk p d }
    ensures { IfOk result (λ r. (r.good ≡ true) × Kept p r) }
{
    save(rt, state, b, p, d)?;
    Ok(Disk {
        saved: p.lines,
        ..d
    })
}

// Saves the state at a place when its forms are on the disk.
pub(crate) fn keep(
    rt: &HostRuntime,
    d: Disk,
    b: &[i16; 234],
    p: Saved,
    f: Files<'_>,
) -> Result<Disk, Told>
    requires { d.written ≡ p.written }
    ensures { IfOk result (λ r. (r.good ≡ true) × Kept p r) }
{
    let s = sync(rt, d, f)?;
    save_synced(rt, f.state, b, p, s)
}
