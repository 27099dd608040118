// Which file a name means: nothing is opened, so that a named pipe doesn't make the program wait.
use std::fs::Metadata;
use std::io::{Error, ErrorKind};
use std::os::unix::fs::MetadataExt;
use std::{fs, io};

// What is known of a file that is there, links followed: whether it is a regular file, its device and inode, and its length.
#[derive(Clone, Copy)]
pub struct Known {
    pub regular: bool,
    pub device: u64,
    pub inode: u64,
    pub length: u64,
}

impl From<Metadata> for Known {
    fn from(found: Metadata) -> Known {
        Known {
            regular: found.is_file(),
            device: found.dev(),
            inode: found.ino(),
            length: found.len(),
        }
    }
}

// A file that was looked at; where it isn't there, why.
pub type Seen = io::Result<Known>;

// A name as text, which it has to be: the library takes no other.
pub fn text(name: &[u8]) -> io::Result<&str> {
    std::str::from_utf8(name).map_err(|_| Error::new(
        ErrorKind::InvalidInput,
        "the name is not UTF-8",
    ))
}

// What is known of the file of this name.
pub fn look(rt: &HostRuntime, path: &[u8]) -> Seen {
    let found = fs::metadata(rt, text(path)?)?;
    Ok(Known::from(found))
}

// The same of the name itself, and not of what a link leads to.
fn look_link(rt: &HostRuntime, path: &[u8]) -> io::Result<Metadata> {
    fs::symlink_metadata(rt, text(path)?)
}

// Whether the name is that of a symbolic link.
pub fn is_link(rt: &HostRuntime, path: &[u8]) -> bool {
    look_link(rt, path).is_ok_and(|known| known.is_symlink())
}
