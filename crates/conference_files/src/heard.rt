// What each leg heard, to new WAV files: linear PCM of 16 bits, one channel, 8,000 samples a second.
ghost use Rattle.std.specs.Prelude.{◌≡◌, ◌<◌, ◌≤◌, length};

use crate::paths::Name;
use crate::{FRAME, LEGS, SAMPLES, paths};
use files::Told;
use std::fs::File;
use wav::HEADER;

// How many frames of each leg are written at once; the bytes of a frame, and of so many.
pub(crate) const FRAMES: usize = 100;

const BYTES: usize = 2 * FRAME;

pub(crate) const PART: usize = FRAMES * BYTES;

// As many frames as a WAV file can have: wav::MOST / 160.
pub(crate) const MOST: u32 = 26843545;

// What a leg heard: its file. Its frames that are not written yet are lent to it, so that they are never moved with it.
#[derive(Drop)]
pub(crate) struct Heard {
    name: Name,
    file: File,
}

impl Heard {
    // Bytes at the file's place.
    fn put(&self, rt: &HostRuntime, bytes: &[u8]) -> Result<(), Told> {
        files::or_tell(
            rt,
            self.name.as_bytes(),
            files::write_all(&self.file, bytes),
        )
    }

    // Its header, with so many frames behind it.
    fn put_header(&self, rt: &HostRuntime, frames: u32) -> Result<(), Told>
        requires { frames ≤ 26843545 }
    {
        let mut head = [0u8; HEADER];
        wav::header(wav::PCM, 16, 160 * frames, &mut head);
        self.put(rt, &head)
    }

    // Makes what leg k heard, which must be new.
    fn create(rt: &HostRuntime, names: &[u8], k: usize) -> Result<Heard, Told>
        requires { k < 8 }
    {
        let name = paths::heard(names, k);
        let file = files::or_tell(rt, name.as_bytes(), files::create(rt, name.as_bytes()))?;
        Ok(Heard { name, file })
    }

    // Closes the file and removes it.
    fn remove(self, rt: &HostRuntime) {
        let Heard { name, file } = self;
        drop(file);
        let name = name.as_bytes();
        let _ = files::or_tell(rt, name, files::remove(rt, name));
    }

    // The header of a new file, that says more than it will have, so that a file that a killed run leaves is seen to be cut. Where it can't be written the file is not left.
    fn begun(self, rt: &HostRuntime) -> Result<Heard, Told> {
        match self.put_header(rt, MOST) {
            Ok(()) => Ok(self),
            Err(e) => {
                self.remove(rt);
                Err(e)
            }
        }
    }

    // Writes so many frames of those held.
    fn write(&self, rt: &HostRuntime, held: &[u8; PART], frames: usize) -> Result<(), Told>
        requires { frames ≤ 100 }
    {
        self.put(rt, &held[..frames * BYTES])
    }

    // The header, now that the length is known.
    fn rewrite(&self, rt: &HostRuntime, frames: u32) -> Result<(), Told>
        requires { frames ≤ 26843545 }
    {
        files::or_tell(rt, self.name.as_bytes(), files::to_start(&self.file))?;
        self.put_header(rt, frames)
    }

    // Has the system keep the file: an error that comes late, as of a disk across a network, is seen here.
    fn keep(&self, rt: &HostRuntime) -> Result<(), Told> {
        files::or_tell(rt, self.name.as_bytes(), self.file.sync_all())
    }
}

// ---- all legs; where something can't be done for one of them nothing is done for those behind it

// Makes what the first n legs heard.
pub(crate) fn make(
    rt: &HostRuntime,
    names: &[u8],
    n: usize,
    outs: &mut [Option<Heard>; LEGS],
) -> Result<(), Told>
    requires { n ≤ 8 }
{
    for k in 0..n {
        outs[k] = Some(Heard::create(rt, names, k)?.begun(rt)?);
    }
    Ok(())
}

// A frame is held behind so many others.
fn hold(behind: usize, frame: &[i16], held: &mut [u8; PART])
    requires { (behind < 100) × (length frame.now ≡ 80) }
{
    let at = behind * BYTES;
    words::to_bytes(frame, &mut held[at..at + BYTES]);
}

// The frame of the first n legs is mixed, and what each heard is held behind so many other frames.
pub(crate) fn add(n: usize, behind: usize, samples: &[i16; SAMPLES], held: &mut [[u8; PART]; LEGS])
    requires { (n ≤ 8) × (behind < 100) }
{
    let mut heard = [0i16; SAMPLES];
    let end = n * FRAME;
    // A conference has 1 to 8 legs, so that nothing is refused.
    let _ = mix::mix(&samples[..end], &mut heard[..end]);
    for k in 0..n {
        hold(behind, &heard[k * FRAME..(k + 1) * FRAME], &mut held[k]);
    }
}

// Writes so many frames of each leg, of those held.
pub(crate) fn write_all(
    rt: &HostRuntime,
    outs: &[Option<Heard>; LEGS],
    held: &[[u8; PART]; LEGS],
    frames: usize,
) -> Result<(), Told>
    requires { frames ≤ 100 }
{
    for (out, held) in outs.iter().zip(held) {
        if let Some(out) = out {
            out.write(rt, held, frames)?;
        }
    }
    Ok(())
}

// Their headers.
pub(crate) fn rewrite_all(
    rt: &HostRuntime,
    outs: &[Option<Heard>; LEGS],
    frames: u32,
) -> Result<(), Told>
    requires { frames ≤ 26843545 }
{
    for out in outs.iter().flatten() {
        out.rewrite(rt, frames)?;
    }
    Ok(())
}

// Has the system keep all.
pub(crate) fn keep_all(rt: &HostRuntime, outs: &[Option<Heard>; LEGS]) -> Result<(), Told> {
    for out in outs.iter().flatten() {
        out.keep(rt)?;
    }
    Ok(())
}

// Removes those that were made.
pub(crate) fn remove_all(rt: &HostRuntime, outs: &mut [Option<Heard>; LEGS]) {
    for out in outs.iter_mut() {
        if let Some(out) = out.take() {
            out.remove(rt);
        }
    }
}
