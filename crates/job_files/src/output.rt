// OUT: whether it is this job's, and opened for writing.
use crate::first;
use files::{Seen, Told, or_tell};
use job::{Saved, parts};
use job_step::TAIL_ROOM;
use print::FRAME_ROOM;
use refusal::Refusal;
use std::fs::{File, OpenOptions};
use std::io;
use std::os::unix::fs::FileExt;

// A job and its open call, with the names of CALL and OUT.
#[derive(Clone, Copy)]
pub(crate) struct Job<'a> {
    pub t: &'a [i16; 1880],
    pub b: &'a [i16; 234],
    pub place: Saved,
    pub call: &'a File,
    pub call_name: &'a [u8],
    pub name: &'a [u8],
}

// An OUT that isn't this job's.
fn refuse(rt: &HostRuntime, name: &[u8], r: Refusal, p: Saved) -> Result<(), Told> {
    let why: &[u8] = if p.written == 0 {
        b"not this call's output, so a new job doesn't write over it: move it away, or name another OUT"
    } else {
        b"not this job's: missing, shorter than what the state has written, or with other samples there; take the OUT that belongs to STATE, or move STATE away and begin anew"
    };
    Err(files::refuse(rt, r.number(), name, why))
}

impl Job<'_> {
    // An OUT of this length, with these first bytes and these at the place where the job goes on, is this job's.
    fn check(self, rt: &HostRuntime, length: u64, front: &[u8], tail: &[u8]) -> Result<(), Told> {
        if let Err(r) = job_step::out_check(self.place, self.b, length, front, tail) {
            return refuse(rt, self.name, r, self.place);
        }
        Ok(())
    }

    // The OUT of a new job, with these first bytes, is what the open call prints. A line is shorter than what it prints, so the first one is read as a whole.
    fn check_first(self, rt: &HostRuntime, front: &[u8]) -> Result<(), Told> {
        let mut line = [0u8; FRAME_ROOM];
        let n = or_tell(rt, self.call_name, self.call.read_at(&mut line, 0))?;
        if !first::is_of(self.t, self.b, self.place, &line[..n], front) {
            return refuse(rt, self.name, Refusal::OtherOutput, self.place);
        }
        Ok(())
    }

    // An open OUT of this length is this job's.
    fn check_open(self, rt: &HostRuntime, out: &File, length: u64) -> Result<(), Told> {
        let mut front = [0u8; FRAME_ROOM];
        let mut tail = [0u8; TAIL_ROOM];
        let first = out.read_at(&mut front, 0);
        let last = out.read_at(
            &mut tail,
            parts::position(job_step::tail_at(self.place)).cast_unsigned(),
        );
        let m = or_tell(rt, self.name, last)?;
        let n = or_tell(rt, self.name, first)?;
        self.check(rt, length, &front[..n], &tail[..m])?;
        if self.place.written == 0 {
            self.check_first(rt, &front[..n])?;
        }
        Ok(())
    }

    // OUT is this job's, as far as it is there.
    pub(crate) fn owns(self, rt: &HostRuntime, seen: Seen) -> Result<(), Told> {
        let Ok(known) = seen else {
            return self.check(rt, 0, b"", b"");
        };
        let out = or_tell(rt, self.name, files::open(rt, self.name))?;
        self.check_open(rt, &out, known.length)
    }
}

// Makes OUT.
fn make(rt: &HostRuntime, name: &[u8]) -> io::Result<File> {
    let file = files::create(rt, name)?;
    job_disk::sync_folder(rt, name);
    Ok(file)
}

// Opens OUT for reading and writing, its bytes as they are.
fn update(rt: &HostRuntime, name: &[u8]) -> io::Result<File> {
    OpenOptions::new()
        .read(true)
        .write(true)
        .open(rt, files::text(name)?)
}

// Opens OUT where it was found, or makes it.
pub(crate) fn open(rt: &HostRuntime, name: &[u8], there: bool) -> Result<File, Told> {
    let opened = if there {
        update(rt, name)
    } else {
        make(rt, name)
    };
    or_tell(rt, name, opened)
}
