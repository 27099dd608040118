// Files that a program writes.
use crate::text;
use std::fs::{File, OpenOptions};
use std::io::{Seek, SeekFrom, Write};
use std::{fs, io};

// Makes a file and opens it for writing; one that is there already is an error.
pub fn create(rt: &HostRuntime, name: &[u8]) -> io::Result<File> {
    OpenOptions::new()
        .write(true)
        .create_new(true)
        .open(rt, text(name)?)
}

// Writes all bytes at the file's position.
pub fn write_all(file: &File, bytes: &[u8]) -> io::Result<()> {
    let mut to = file;
    to.write_all(bytes)
}

// Moves the file's position to its first byte.
pub fn to_start(file: &File) -> io::Result<()> {
    let mut at = file;
    at.seek(SeekFrom::Start(0))?;
    Ok(())
}

// Takes a file's name away.
pub fn remove(rt: &HostRuntime, name: &[u8]) -> io::Result<()> {
    fs::remove_file(rt, text(name)?)
}
