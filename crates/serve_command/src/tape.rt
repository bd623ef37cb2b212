//! A journal file as a tape, locked by one process at a time.

ghost use Rattle.byte_ends.specs.Failures.{CountsFailure, OneFailed};

use super::file_number::FileNumber;
use byte_ends::Failed;
use site_journal::{Feed, Tape};
use std::fs::{File, OpenFile, OpenOptions, TryLockError};
use std::io::{Read, Write};
use std::os::unix::fs::{FileTypeExt, OpenOptionsExt};
use std::rt::Files;
use std::{fs, io};

/// Why a journal's file isn't opened.
#[derive(Clone, Copy, Debug, PartialEq, Eq)]
pub enum TapeFault {
    /// Another process has it.
    Locked,
    /// The system refused a call.
    Failed,
}

/// A file as a tape. The system isn't modelled: that synced bytes stay is assumed.
#[derive(Drop)]
pub struct FileTape {
    file: File,
    failures: u64,
}

impl FileTape {
    /// Opens the file of this name, creates it with mode 0600 if it does not exist, locks it until it is closed, and
    /// syncs its folder. A named pipe, whose end would never come, is no journal: `Failed`.
    pub fn open<R: Files<File = File>>(rt: &R, name: &str) -> Result<FileTape, TapeFault> {
        let file = opened(rt, name)?;
        if is_pipe(&file) {
            return Err(TapeFault::Failed);
        }
        match file.try_lock() {
            Ok(()) => {}
            Err(TryLockError::WouldBlock) => return Err(TapeFault::Locked),
            Err(TryLockError::Error(_)) => return Err(TapeFault::Failed),
        }
        if sync_folder(rt, name).is_err() {
            return Err(TapeFault::Failed);
        }
        Ok(FileTape { file, failures: 0 })
    }

    /// Whether its file is the one at this path, which isn't followed where it is a link.
    pub fn is_at<R: Files>(&self, rt: &R, path: &str) -> bool {
        match self.file.metadata() {
            Ok(metadata) => FileNumber::at(rt, path) == Some(FileNumber::of(&metadata)),
            Err(_) => false,
        }
    }
}

/// Whether a file is a named pipe.
fn is_pipe(file: &File) -> bool {
    match file.metadata() {
        Ok(metadata) => metadata.file_type().is_fifo(),
        Err(_) => false,
    }
}

/// The file, to read it and to add at its end.
fn opened<R: Files<File = File>>(rt: &R, name: &str) -> Result<File, TapeFault> {
    let opened = OpenOptions::new()
        .read(true)
        .append(true)
        .create(true)
        .mode(0o600)
        .open(rt, name);
    match opened {
        Ok(file) => Ok(file),
        Err(_) => Err(TapeFault::Failed),
    }
}

/// Has the system keep which files the folder of this one has.
pub fn sync_folder<R: Files>(rt: &R, name: &str) -> io::Result<()> {
    fs::open(rt, folder_of(name))?.sync_all()
}

/// The folder of a file.
fn folder_of(name: &str) -> &str {
    match name.rsplit_once('/') {
        Some(("", _)) => "/",
        Some((folder, _)) => folder,
        None => ".",
    }
}

impl Feed for FileTape {
    ghost use Rattle.std.specs.Prelude.{None};

    ghost image = { λ _. None };

    ghost left = { λ _. None };

    ghost failed = { λ tape. tape.failures };

    fn read(&mut self, into: &mut [u8]) -> Result<usize, Failed> {
        match self.file.read(into) {
            Ok(count) => Ok(count),
            Err(_) => Err(counted(&mut self.failures)),
        }
    }
}

impl Tape for FileTape {
    fn append(&mut self, bytes: &[u8]) -> Result<(), Failed> {
        done(self.file.write_all(bytes), &mut self.failures)
    }

    fn sync(&mut self) -> Result<(), Failed> {
        done(self.file.sync_data(), &mut self.failures)
    }

    fn cut(&mut self, len: u64) -> Result<(), Failed> {
        done(self.file.set_len(len), &mut self.failures)
    }
}

/// What a call answered, of which a failure is counted.
fn done(answer: io::Result<()>, failures: &mut u64) -> Result<(), Failed>
    ensures { CountsFailure failures.old failures.new result }
{
    match answer {
        Ok(()) => Ok(()),
        Err(_) => Err(counted(failures)),
    }
}

/// Counts a failure.
fn counted(failures: &mut u64) -> Failed
    ensures { OneFailed failures.old failures.new }
{
    *failures = failures.saturating_add(1);
    Failed
}
