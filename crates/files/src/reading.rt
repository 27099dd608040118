// What a program reads: standard input, or a file that it opened.
ghost use Rattle.std.specs.Prelude.{◌≤◌, length};
ghost use Rattle.std.specs.Io.{ReadsAtMost};

use crate::{Told, or_tell, text};
use std::fs::File;
use std::io;
use std::io::Read;
use std::rt::Stdin;

#[derive(Drop)]
pub enum Input {
    Standard(Stdin),
    Named(File),
}

// Opens a file for reading.
pub fn open(rt: &HostRuntime, name: &[u8]) -> io::Result<File> {
    File::open(rt, text(name)?)
}

// The same, with a message where that fails.
pub fn opened(rt: &HostRuntime, name: &[u8]) -> Result<Input, Told> {
    let file = or_tell(rt, name, open(rt, name))?;
    Ok(Input::Named(file))
}

impl Input {
    // One read, to the front of `buf`: how many bytes, 0 at the end.
    pub fn read(&self, buf: &mut [u8]) -> io::Result<usize>
        ensures { ReadsAtMost result buf.new }
    {
        match self {
            Input::Standard(stdin) => {
                let mut stdin = *stdin;
                stdin.read(buf)
            }
            Input::Named(file) => {
                let mut file = file;
                file.read(buf)
            }
        }
    }

    // Reads until `buf` is full, the file ends or a read fails; how many bytes stand at its front.
    pub fn read_full(&self, buf: &mut [u8]) -> usize
        ensures { result ≤ length buf.new }
    {
        let mut done = 0;
        // No `for`: a read gives any number of bytes.
        while done < buf.len() {
            let n = self.read(&mut buf[done..]).unwrap_or(0);
            if n == 0 {
                break;
            }
            done += n;
        }
        done
    }
}
