//! The file in which flows are saved.
use crate::standing::{Standing, stands_at};
use std::fs::{self, OpenFile, OpenOptions};
use std::io::{self, ErrorKind, Write};
use std::os::unix::fs::MetadataExt;
use std::rt::Files as HostFiles;

/// A file that is open for appending, with its path, and what tells it apart from other files.
#[derive(Drop)]
pub struct Saved<R: HostFiles + AllocGlobal> {
    path: String,
    file: R::File,
    device: u64,
    node: u64,
}

impl<R: HostFiles + AllocGlobal> Saved<R> {
    /// Opens the file for appending, which is made where it is absent. What may have to be waited for, as a pipe, is not opened.
    pub fn open(rt: &R, path: &str) -> io::Result<Saved<R>> {
        if is_other(rt, path) {
            return Err(io::Error::new(ErrorKind::Unsupported, "no regular file"));
        }
        let path = String::from_str(rt.alloc(), path)?;
        let file = OpenOptions::new()
            .append(true)
            .create(true)
            .open(rt, path.as_str())?;
        let found = file.metadata()?;
        Ok(Saved {
            path,
            file,
            device: found.dev(),
            node: found.ino(),
        })
    }

    /// Opens the file so where it is there. None where it is absent and may be made, in a directory that is there.
    pub fn open_existing(rt: &R, path: &str) -> io::Result<Option<Saved<R>>> {
        match fs::metadata(rt, path) {
            Ok(_) => Ok(Some(Saved::open(rt, path)?)),
            Err(error) if error.kind() == ErrorKind::NotFound => {
                fs::metadata(rt, folder_of(path))?;
                Ok(None)
            }
            Err(error) => Err(error),
        }
    }

    /// Whether the path still names this file.
    pub fn is_at(&self, rt: &R, path: &str) -> bool {
        if self.path.as_str() != path {
            return false;
        }
        match fs::metadata(rt, path) {
            Ok(found) => found.dev() == self.device && found.ino() == self.node,
            Err(_) => false,
        }
    }

    /// Writes the bytes at the end that the file has then.
    ///
    /// What follows is relied on, and neither proved nor told: each write goes to the end that the file has then (`O_APPEND`), whoever
    /// else writes to it; and `write_all` is one call of the system's `write`, as long as that takes all bytes. For a regular file it
    /// takes up to 2,147,479,552 at once, unless the disk or a limit is full, or the program is killed: then it takes a front of them.
    /// After such a front `write_all` goes on with the rest, and where that fails, so does the append, with the front in the file. No
    /// byte is waited for to reach the disk.
    pub fn put(&mut self, bytes: &[u8]) -> io::Result<()> {
        self.file.write_all(bytes)
    }
}

fn is_other<R: HostFiles>(rt: &R, path: &str) -> bool {
    match stands_at(rt, path) {
        Ok(Standing::Other) => true,
        Ok(Standing::File(_) | Standing::Directory | Standing::Null) | Err(_) => false,
    }
}

// The directory in which a path's last name stands.
fn folder_of(path: &str) -> &str {
    match path.rfind('/') {
        Some(at) => &path[..at + 1],
        None => ".",
    }
}
