//! Standard streams that are closed when the program begins.

use std::fs::File;
use std::os::fd::AsRawFd;
use std::rt::Files;

/// The greatest descriptor of a standard stream, which is standard error's.
const LAST_STANDARD: i32 = 2;

/// The files that are open in place of standard streams that were closed.
#[derive(Drop)]
pub struct InPlace {
    _first: Option<File>,
    _second: Option<File>,
    _third: Option<File>,
}

/// Opens `/dev/null` in place of each standard stream that is closed. Else the next file or socket would get the
/// stream's descriptor, and a journal, or another site, what is written to the stream. Standard input then ends at once,
/// and writes fail as to a closed stream, since `/dev/null` is opened for reading alone. While what this returns lives
/// the descriptors are taken.
pub fn fill_closed<R: Files<File = File>>(rt: &R) -> InPlace {
    InPlace {
        _first: filler(rt),
        _second: filler(rt),
        _third: filler(rt),
    }
}

/// A file at the least free descriptor, if that is one of a standard stream.
fn filler<R: Files<File = File>>(rt: &R) -> Option<File> {
    let file = File::open(rt, "/dev/null").ok()?;
    if file.as_raw_fd() > LAST_STANDARD {
        return None;
    }
    Some(file)
}
