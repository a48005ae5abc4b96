//! Files of the system, and what people are told of them.
use crate::foreign::is_mitmproxys;
use crate::named::Named;
use crate::option_causes::tell_causes;
use crate::refusal::Refusal;
use crate::saved::Saved;
use crate::standing::{Standing, stands_at};
use crate::start::Start;
use crate::telling::{tell_end, tell_start};
use px_options::{OptionsError, read_options};
use px_outside::FileError;
use std::io::{self, ErrorKind};
use std::rt::Files as HostFiles;
use std::{fs, mem};

// What is told of a flow file of mitmproxy's own.
const FOREIGN: &str = "it is a file of mitmproxy's own, which has another form: docs/flow-files.md";

// A file that the options name is read up to so many bytes.
const MOST: u64 = 1_000_000_000;

/// Files of the system, by their paths.
///
/// Regular files are read, and appended to, as `/dev/null` is. What stands under a path is judged before it is opened, so that nothing
/// is opened that may have to be waited for. The file that the words of the command line name may be anything, and of any size, where it is read first.
#[derive(Drop)]
pub struct SystemFiles<R: HostFiles + AllocGlobal + Eprint + Drop> {
    rt: R,
    // The file that the words name, until it was read.
    named: Named,
    // The bytes of options that were refused.
    refused: Option<Vec<u8>>,
    // What a run that serves reads before, until it saves.
    start: Option<Start>,
    // The path that was read last.
    last: Option<String>,
    // The file that was appended to last.
    saved: Option<Saved<R>>,
    // Why a file was not read, the last time.
    refusal: Option<Refusal>,
    // That bytes were not written has been told.
    is_loss_told: bool,
}

impl<R: HostFiles + AllocGlobal + Eprint + Drop> SystemFiles<R> {
    /// The files that this runtime reaches, and the one that the words name.
    pub fn new(rt: R, named: Named) -> SystemFiles<R> {
        SystemFiles {
            rt,
            named,
            refused: None,
            start: None,
            last: None,
            saved: None,
            refusal: None,
            is_loss_told: false,
        }
    }

    /// Tells people why the options were refused, where they were.
    pub fn tell_refused(&self) {
        if let Some(bytes) = &self.refused {
            tell_causes(&self.rt, self.rt.alloc(), bytes);
        }
    }

    /// Tells people why a file was not read, the last time.
    pub fn tell_refusal(&self) {
        if let Some(refusal) = &self.refusal {
            refusal.tell(&self.rt);
        }
    }

    /// Tells people where the file that was read last is one of mitmproxy's own.
    pub fn tell_foreign(&self) {
        let Some(path) = &self.last else {
            return;
        };
        if !self.is_file(path) {
            return;
        }
        if let Ok(bytes) = fs::read(&self.rt, path.as_str()) {
            if is_mitmproxys(&bytes) {
                let _ = self.rt.eprintln(FOREIGN);
            }
        }
    }

    /// The whole file.
    pub fn read(&mut self, path: &str) -> Result<Vec<u8>, FileError> {
        drop(mem::replace(&mut self.last, String::from_str(self.rt.alloc(), path).ok()));
        match self.read_file(path) {
            Ok(bytes) => Ok(bytes),
            Err(why) => Err(self.refuse(why)),
        }
    }

    /// Writes the bytes at the file's end. The first failure is told.
    pub fn append(&mut self, path: &str, bytes: &[u8]) -> Result<(), FileError> {
        match self.put(path, bytes) {
            Ok(()) => Ok(()),
            Err(error) if error.kind() == ErrorKind::OutOfMemory => Err(FileError::NoMemory),
            Err(error) => {
                self.tell_loss(path, &error);
                Err(FileError::Failed)
            }
        }
    }

    fn is_file(&self, path: &str) -> bool {
        match stands_at(&self.rt, path) {
            Ok(Standing::File(_)) => true,
            Ok(Standing::Directory | Standing::Null | Standing::Other) | Err(_) => false,
        }
    }

    // The whole file. The one that the words name may be anything, the first time.
    fn read_file(&mut self, path: &str) -> Result<Vec<u8>, Refusal> {
        match self.take_named(path) {
            Named::Options(_) => self.read_options(path),
            Named::Flows(_) => Ok(fs::read(&self.rt, path)?),
            Named::Nothing => self.read_regular(path),
        }
    }

    // The file that the words name, where this is its path and it is read for the first time.
    fn take_named(&mut self, path: &str) -> Named {
        if self.named.is_at(path) {
            mem::replace(&mut self.named, Named::Nothing)
        } else {
            Named::Nothing
        }
    }

    // The options file, of which is kept what people may have to be told.
    fn read_options(&mut self, path: &str) -> Result<Vec<u8>, Refusal> {
        let bytes = fs::read(&self.rt, path)?;
        self.judge(&bytes);
        Ok(bytes)
    }

    // Keeps which files these options have read and where they save, or the bytes of refused ones.
    fn judge(&mut self, bytes: &[u8]) {
        let alloc = self.rt.alloc();
        match read_options(alloc, bytes) {
            Ok(options) => {
                self.start = Start::of(alloc, &options);
                drop(options);
                self.get_ready();
            }
            Err(OptionsError::NoMemory) => {}
            Err(error) => {
                drop(error);
                self.refused = Vec::from_slice(alloc, bytes).ok();
            }
        }
    }

    // A regular file that the options name.
    fn read_regular(&mut self, path: &str) -> Result<Vec<u8>, Refusal> {
        let bytes = match stands_at(&self.rt, path)? {
            Standing::File(len) if len > MOST => return Err(Refusal::TooLarge),
            Standing::File(_) => fs::read(&self.rt, path)?,
            Standing::Directory => return Err(Refusal::Directory),
            Standing::Null | Standing::Other => return Err(Refusal::NoRegularFile),
        };
        if let Some(start) = &mut self.start {
            start.count();
            self.get_ready();
        }
        Ok(bytes)
    }

    // Behind the last file that is read before serving: opens the save file where it is there already, and tells people where none can be.
    fn get_ready(&mut self) {
        let Some(start) = self.start.take() else {
            return;
        };
        match start.path() {
            Some(path) => {
                match Saved::open_existing(&self.rt, path) {
                    Ok(saved) => self.saved = saved,
                    Err(error) => tell_start(&self.rt, path, &error),
                }
                drop(start);
            }
            None => self.start = Some(start),
        }
    }

    // Keeps why a file was not read: that it was not.
    fn refuse(&mut self, why: Refusal) -> FileError {
        let error = if why.is_memory() {
            FileError::NoMemory
        } else if why.is_absence() {
            FileError::Absent
        } else {
            FileError::Failed
        };
        drop(mem::replace(&mut self.refusal, Some(why)));
        error
    }

    fn tell_loss(&mut self, path: &str, why: &io::Error) {
        if !mem::replace(&mut self.is_loss_told, true) {
            tell_end(&self.rt, path, why);
        }
    }

    // Writes the bytes at the file's end. It stays open, and is opened anew where the path names it no more.
    fn put(&mut self, path: &str, bytes: &[u8]) -> io::Result<()> {
        let mut saved = match self.saved.take() {
            Some(saved) if saved.is_at(&self.rt, path) => saved,
            other => {
                drop(other);
                Saved::open(&self.rt, path)?
            }
        };
        let done = saved.put(bytes);
        self.saved = Some(saved);
        done
    }
}
