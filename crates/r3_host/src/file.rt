//! The store's file, which is opened at its first use.

ghost use Rattle.std.specs.Io.{ReadsAtMost};

use std::alloc::{AllocError, Global};
use std::fs::{File, OpenOptions};
use std::io;
use std::io::ErrorKind;
use std::os::unix::fs::FileExt;
use std::rt::Files;

/// A file that is opened at its first use, and made where it isn't there.
#[derive(Drop)]
pub struct LazyFile {
    path: String,
    file: Option<File>,
    // Whether the folder's entry of the file is on the device.
    placed: bool,
}

impl LazyFile {
    pub fn at(alloc: Global, path: &str) -> Result<LazyFile, AllocError> {
        Ok(LazyFile {
            path: String::from_str(alloc, path)?,
            file: None,
            placed: false,
        })
    }

    pub fn len<R: Files<File = File>>(&mut self, rt: &R) -> io::Result<u64> {
        self.open(rt)?;
        match &self.file {
            Some(file) => Ok(file.metadata()?.len()),
            None => Err(io::Error::from(ErrorKind::NotFound)),
        }
    }

    /// Reads until the buffer is full or the file ends.
    pub fn read_at<R: Files<File = File>>(
        &mut self,
        rt: &R,
        at: u64,
        into: &mut [u8],
    ) -> io::Result<usize>
        ensures { ReadsAtMost result into.new }
    {
        self.open(rt)?;
        match &self.file {
            Some(file) => read_full(file, at, into),
            None => Err(io::Error::from(ErrorKind::NotFound)),
        }
    }

    /// Writes all of the bytes.
    pub fn write_at<R: Files<File = File>>(
        &mut self,
        rt: &R,
        at: u64,
        bytes: &[u8],
    ) -> io::Result<()> {
        self.open(rt)?;
        match &self.file {
            Some(file) => file.write_all_at(bytes, at),
            None => Err(io::Error::from(ErrorKind::NotFound)),
        }
    }

    /// Brings the file to the device, and at the first time the folder's entry of it too.
    pub fn sync<R: Files<File = File>>(&mut self, rt: &R) -> io::Result<()> {
        self.open(rt)?;
        match &self.file {
            Some(file) => file.sync_all()?,
            None => return Err(io::Error::from(ErrorKind::NotFound)),
        }
        if !self.placed {
            File::open(rt, folder_of(self.path.as_str()))?.sync_all()?;
            self.placed = true;
        }
        Ok(())
    }

    fn open<R: Files<File = File>>(&mut self, rt: &R) -> io::Result<()> {
        if self.file.is_none() {
            let file = OpenOptions::new()
                .read(true)
                .write(true)
                .create(true)
                .open(rt, self.path.as_str())?;
            self.file = Some(file);
        }
        Ok(())
    }
}

// The folder of a path.
fn folder_of(path: &str) -> &str {
    match path.rsplit_once('/') {
        None => ".",
        Some((folder, _)) => { if folder.is_empty() { "/" } else { folder } }
    }
}

// Reads until the buffer is full or the file ends.
fn read_full(file: &File, at: u64, into: &mut [u8]) -> io::Result<usize>
    ensures { ReadsAtMost result into.new }
{
    let mut done = 0;
    'reads: for _ in 0..u64::MAX {
        if done >= into.len() {
            return Ok(done);
        }
        match file.read_at(&mut into[done..], at.wrapping_add(done as u64)) {
            Ok(0) => return Ok(done),
            Ok(count) => done += count,
            Err(fault) if fault.kind() == ErrorKind::Interrupted => {}
            Err(fault) => return Err(fault),
        }
    }
    Ok(done)
}
