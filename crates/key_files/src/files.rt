//! The system's files.

use super::owned::{FileOwner, owned_keys};
use byte_ends::{BytesFault, Ends, read_all};
use key_file::{KeyFault, Keys};
use std::alloc::Global;
use std::fs;
use std::fs::OpenFile;
use std::os::unix::fs::MetadataExt;
use std::rt::Files;

/// How many bytes a file of keys may have: 1 MiB.
const FILE_LIMIT: usize = 1_048_576;

/// The keys of the file of a name, which has to be the user's own, with no permission for group and others: what is
/// looked at is the file that was opened. Refusals: 1 `Open`, it isn't; 2 `BadLine n`; 4 `ReadFault`, it can't be
/// opened or read, isn't a regular file, or has more than 1 MiB; 5 `NoMemory`.
pub fn open_keys<R: Files>(rt: &R, alloc: Global, name: &str) -> Result<Keys, KeyFault> {
    if !is_regular(rt, name) {
        return Err(KeyFault::ReadFault);
    }
    let Ok(file) = fs::open(rt, name) else {
        return Err(KeyFault::ReadFault);
    };
    let Ok(metadata) = file.metadata() else {
        return Err(KeyFault::ReadFault);
    };
    let owner = FileOwner {
        mode: metadata.mode(),
        user: metadata.uid(),
    };
    let text = match read_all(alloc, &mut Ends::new(file), FILE_LIMIT) {
        Ok(text) => text,
        Err(BytesFault::NoMemory) => return Err(KeyFault::NoMemory),
        Err(_) => return Err(KeyFault::ReadFault),
    };
    owned_keys(alloc, owner, libc::geteuid(), text.as_slice())
}

/// Whether a regular file has this name. Opening a named pipe would wait for a process that writes to it.
fn is_regular<R: Files>(rt: &R, name: &str) -> bool {
    match fs::metadata(rt, name) {
        Ok(metadata) => metadata.file_type().is_file(),
        Err(_) => false,
    }
}
