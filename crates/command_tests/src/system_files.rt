//! Real files, opened by their names: which calls count as failed. What commands print of them is in
//! `plays/files.play`.

use super::asserts::assert_found;
use super::program::printed_by;
use byte_ends::{BytesFault, Ends};
use console::Named;
use record_pull::SystemFiles;
use std::fs;
use std::test::Fail;

/// An empty snapshot.
const SNAPSHOT: &str = "reviewgate 2\nend 0\n";

/// Why bytes weren't read, if they weren't.
fn fault_of(read: Result<Vec<u8>, BytesFault>) -> Option<BytesFault> {
    match read {
        Ok(_) => None,
        Err(fault) => Some(fault),
    }
}

// A file that is there, also read as one byte too long, a folder, and one that isn't there; and a snapshot, and a
// folder in its place.
#[test]
fn files_that_fail_are_counted(rt: HostRuntime) -> Result<(), Fail> {
    let name = "reviewgate_snapshot.tmp";
    fs::write(&rt, name, SNAPSHOT.as_bytes())?;
    let mut files = SystemFiles::new(rt);
    let texts: [(&str, usize, Option<BytesFault>, u64); 4] = [
        (name, 19, None, 0),
        (name, 18, Some(BytesFault::TooLong), 0),
        (".", 19, Some(BytesFault::ReadFault), 1),
        ("reviewgate_missing.tmp", 19, Some(BytesFault::ReadFault), 2),
    ];
    for (file, limit, fault, failures) in texts {
        let found = fault_of(files.read(file, limit));
        assert_found(&rt, (found, files.failures()), (fault, failures));
    }
    for (file, status, failures) in [(name, 0, 2), (".", 1, 3)] {
        let words = ["merge", "-", file];
        let mut input = Ends::new(SNAPSHOT.as_bytes());
        let (_, _, found) = printed_by(rt.alloc(), words.as_slice(), &mut input, &mut files);
        assert_found(&rt, (found, files.failures()), (status, failures));
    }
    fs::remove_file(&rt, name)?;
    Ok(())
}
