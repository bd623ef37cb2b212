//! Saves a record as a snapshot, so that the file of that name holds the old one whole or the new one whole.

ghost use Rattle.std.specs.Prelude.{List, OnOk};
ghost use Rattle.review_ops.specs.Operation.{Operation};

use super::tape::sync_folder;
use byte_ends::Ends;
use replica_core::Replica;
use snapshot_text::write_snapshot;
use std::alloc::{AllocError, Global};
use std::fs::{OpenFile, OpenOptions};
use std::io::ErrorKind;
use std::os::unix::fs::OpenOptionsExt;
use std::rt::Files;
use std::{fs, io};

/// Where the record of a site is saved once it has ended.
pub trait Saves {
    /// The record was saved between the two states.
    ghost saves: { Self → List Operation → Self → Type 0 };

    /// Saves a record, in the place of one that was saved before, if a record is to be saved at all.
    fn save(&mut self, replica: &Replica) -> io::Result<()>
        ensures { OnOk result (saves self.old replica.now self.new) };
}

/// A file of the system for a snapshot, if one is named. What the system does with it isn't modelled.
#[derive(Drop)]
pub struct SnapshotFile<R> {
    rt: R,
    alloc: Global,
    name: Option<String>,
}

impl<R: Copy> SnapshotFile<R> {
    /// The file of a name, if one is given.
    pub fn new(rt: R, alloc: Global, name: Option<&str>) -> Result<SnapshotFile<R>, AllocError> {
        let name = match name {
            Some(name) => Some(String::from_str(alloc, name)?),
            None => None,
        };
        Ok(SnapshotFile { rt, alloc, name })
    }
}

impl<R: Files> SnapshotFile<R> {
    /// Tries whether a record could be saved in the file's place, if one is named: nothing is there but a regular file,
    /// and a new file can be made beside it.
    pub fn try_out(&self) -> io::Result<()> {
        match &self.name {
            Some(name) => try_beside(&self.rt, self.alloc, name.as_str()),
            None => Ok(()),
        }
    }
}

impl<R: Files> Saves for SnapshotFile<R> {
    ghost saves = { λ _ _ _. Unit {0} };

    fn save(&mut self, replica: &Replica) -> io::Result<()> {
        match &self.name {
            Some(name) => save(&self.rt, self.alloc, name.as_str(), replica),
            None => Ok(()),
        }
    }
}

/// Makes a new file beside a regular file or none, and removes it. What is there already, which a save replaces unless it
/// is a folder, stays there: another site may be about to save.
fn try_beside<R: Files>(rt: &R, alloc: Global, name: &str) -> io::Result<()> {
    refuse_other_kind(rt, name)?;
    let beside = format!(in alloc; "{name}.new")?;
    match new_file(rt, beside.as_str()) {
        Ok(_new) => fs::remove_file(rt, beside.as_str()),
        Err(error) if error.kind() == ErrorKind::AlreadyExists => {
            refuse_folder(rt, beside.as_str())
        }
        Err(error) => Err(error),
    }
}

/// Fails where something is there that is no regular file, and for the empty name, which no file has: no file can be put
/// in a folder's place, and a device, a named pipe or a socket isn't to be replaced by one.
fn refuse_other_kind<R: Files>(rt: &R, name: &str) -> io::Result<()> {
    if name.is_empty() {
        return Err(io::Error::from(ErrorKind::NotFound));
    }
    match fs::metadata(rt, name) {
        Ok(found) if !found.is_file() => Err(io::Error::from(ErrorKind::AlreadyExists)),
        _ => Ok(()),
    }
}

/// Fails where a folder is there.
fn refuse_folder<R: Files>(rt: &R, name: &str) -> io::Result<()> {
    match fs::metadata(rt, name) {
        Ok(found) if found.is_dir() => Err(io::Error::from(ErrorKind::IsADirectory)),
        _ => Ok(()),
    }
}

/// A new file of this name, readable by its owner alone. It fails where something is there already.
fn new_file<R: Files>(rt: &R, name: &str) -> io::Result<R::File> {
    OpenOptions::new()
        .write(true)
        .create_new(true)
        .mode(0o600)
        .open(rt, name)
}

/// Saves a record in a file's place. A snapshot that can't be put there stays beside the file; nothing is left of one
/// that can't be written whole.
fn save<R: Files>(rt: &R, alloc: Global, name: &str, replica: &Replica) -> io::Result<()> {
    let beside = format!(in alloc; "{name}.new")?;
    let _absent = fs::remove_file(rt, beside.as_str());
    match write_new(rt, alloc, beside.as_str(), replica) {
        Ok(()) => put_in_place(rt, beside.as_str(), name),
        Err(error) => {
            let _left = fs::remove_file(rt, beside.as_str());
            Err(error)
        }
    }
}

/// Writes the snapshot to a new file, and has the system keep it. It fails where something is there already.
fn write_new<R: Files>(rt: &R, alloc: Global, name: &str, replica: &Replica) -> io::Result<()> {
    let mut drain = Ends::new(new_file(rt, name)?);
    if write_snapshot(alloc, replica, &mut drain).is_err() {
        return Err(io::Error::from(ErrorKind::Other));
    }
    drain.into_inner().sync_all()
}

/// Puts the new file in the file's place, and has the system keep that.
fn put_in_place<R: Files>(rt: &R, beside: &str, name: &str) -> io::Result<()> {
    fs::rename(rt, beside, name)?;
    sync_folder(rt, name)
}
