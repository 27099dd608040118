// Files copied, and damaged.
ghost use Rattle.std.specs.Prelude.{◌<◌};

use files::Input;
use std::fs::{File, OpenOptions};
use std::io;
use std::os::unix::fs::FileExt;

// One chunk more, of which `left` bytes are wanted; how many are left then, 0 where there is no more.
fn chunk(from: &Input, to: &File, left: u32, space: &mut [u8]) -> u32
    requires { 0 < left }
    ensures { result < left }
{
    let most = space.len().min(left as usize);
    let n = from.read_full(&mut space[0..most]);
    if n == 0 {
        return 0;
    }
    let _ = files::write_all(to, &space[0..n]);
    left - n as u32
}

// At most `most` bytes of an open file to another. Counted by hand: a chunk takes as many as it reads.
fn bytes(from: &Input, to: &File, most: u32) {
    let mut buffer = [0u8; 65536];
    let space: &mut [u8] = &mut buffer;
    let mut left = most;
    while 0 < left {
        left = chunk(from, to, left, space);
    }
}

// The first bytes of a file to an open one.
fn file(rt: &HostRuntime, from: &[u8], to: &File, most: u32) {
    if let Ok(from) = files::open(rt, from) {
        bytes(&Input::Named(from), to, most);
    }
}

fn overwrite(rt: &HostRuntime, name: &[u8]) -> io::Result<File> {
    File::create(rt, files::text(name)?)
}

pub(crate) fn copy(rt: &HostRuntime, from: &[u8], to: &[u8], most: u32) {
    if let Ok(to) = overwrite(rt, to) {
        file(rt, from, &to, most);
    }
}

fn append(rt: &HostRuntime, name: &[u8]) -> io::Result<File> {
    OpenOptions::new().append(true).open(rt, files::text(name)?)
}

// A file's bytes behind those of another, so many times.
pub(crate) fn add(rt: &HostRuntime, from: &[u8], to: &[u8], times: u32) {
    if let Ok(to) = append(rt, to) {
        for _ in 0..times {
            file(rt, from, &to, job::parts::ALL);
        }
    }
}

fn update(rt: &HostRuntime, name: &[u8]) -> io::Result<File> {
    OpenOptions::new()
        .read(true)
        .write(true)
        .open(rt, files::text(name)?)
}

// Byte `at` of a file is raised by one; 1 where there is none.
pub(crate) fn damage(rt: &HostRuntime, name: &[u8], at: u32) {
    if let Ok(file) = update(rt, name) {
        let mut byte = [0u8; 1];
        let _ = file.read_at(&mut byte, at as u64);
        byte[0] = byte[0].wrapping_add(1);
        let _ = file.write_at(&byte, at as u64);
    }
}
