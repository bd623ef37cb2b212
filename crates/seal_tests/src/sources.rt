//! Sources of sealed lines.

use byte_ends::{Broken, BytesFault, Ends, Source, read_all};
use sealed_ends::{OpenFault, SealedSource};
use sealed_line::Seal;
use std::alloc::Global;
use std::test::Fail;

/// A seal of these tests.
fn seal() -> Seal {
    Seal::new(&[1; 32], &[2; 32])
}

/// Two sealed lines, and then these bytes.
fn lines_and(alloc: Global, more: &[u8]) -> Result<Vec<u8>, Fail> {
    let mut ours = seal();
    let mut lines = Vec::new(alloc);
    ours.seal(alloc, b"hello 2", &mut lines)?;
    ours.seal(alloc, b"quit", &mut lines)?;
    lines.extend_from_slice(more)?;
    Ok(lines)
}

/// What is read of some bytes.
fn read(alloc: Global, lines: &[u8]) -> Result<Vec<u8>, BytesFault> {
    let mut source = SealedSource::new(alloc, Ends::new(lines), seal());
    read_all(alloc, &mut source, 80)
}

#[test]
fn sealed_lines_are_read_as_plain_ones(rt: HostRuntime) -> Result<(), Fail> {
    let alloc = rt.alloc();
    let lines = lines_and(alloc, b"")?;
    let text = read(alloc, lines.as_slice())?;
    assert_eq!(rt; text.as_slice(), b"hello 2\nquit\n".as_slice());
    Ok(())
}

#[test]
fn a_bad_line_is_a_failed_read(rt: HostRuntime) -> Result<(), Fail> {
    let alloc = rt.alloc();
    let plain = lines_and(alloc, b"hello 2\n")?;
    let unfinished = lines_and(alloc, b"AAAA")?;
    assert!(rt; matches!(read(alloc, plain.as_slice()), Err(BytesFault::ReadFault)));
    assert!(rt;
        matches!(
            read(alloc, unfinished.as_slice()),
            Err(BytesFault::ReadFault)
        )
    );
    Ok(())
}

/// Why the reading of a source failed; nothing where it didn't, or where it said so before.
fn fault_of<S: Source + Drop>(alloc: Global, within: S) -> Option<OpenFault> {
    let mut source = SealedSource::new(alloc, within, seal());
    let is_none = source.fault().is_none();
    let _read = read_all(alloc, &mut source, 80);
    if is_none { source.fault() } else { None }
}

#[test]
fn a_source_says_why_it_failed(rt: HostRuntime) -> Result<(), Fail> {
    let alloc = rt.alloc();
    let good = lines_and(alloc, b"")?;
    let plain = lines_and(alloc, b"hello 2\n")?;
    let unfinished = lines_and(alloc, b"AAAA")?;
    let broken = Broken::at_call(Ends::new(good.as_slice()), 1);
    assert_eq!(rt; fault_of(alloc, Ends::new(good.as_slice())), None);
    assert_eq!(rt;
        fault_of(alloc, Ends::new(plain.as_slice())),
        Some(OpenFault::BadLine)
    );
    assert_eq!(rt;
        fault_of(alloc, Ends::new(unfinished.as_slice())),
        Some(OpenFault::CutLine)
    );
    assert_eq!(rt; fault_of(alloc, broken), Some(OpenFault::ReadFault));
    Ok(())
}
