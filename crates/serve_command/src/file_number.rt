//! Which file of the system is at a path.

use std::fs;
use std::fs::Metadata;
use std::os::unix::fs::MetadataExt;
use std::rt::Files;

/// The identity of a file: two files that exist at the same time have different ones.
#[derive(Clone, Copy, Debug, PartialEq, Eq)]
pub struct FileNumber {
    device: u64,
    inode: u64,
}

impl FileNumber {
    /// That of the file with this metadata.
    pub fn of(metadata: &Metadata) -> FileNumber {
        FileNumber {
            device: metadata.dev(),
            inode: metadata.ino(),
        }
    }

    /// The identity of the file at a path, without following a link; `None` if there is none, or the system refuses to
    /// say.
    pub fn at<R: Files>(rt: &R, path: &str) -> Option<FileNumber> {
        match fs::symlink_metadata(rt, path) {
            Ok(found) => Some(FileNumber::of(&found)),
            Err(_) => None,
        }
    }
}
