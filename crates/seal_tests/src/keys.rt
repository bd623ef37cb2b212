//! Files of keys.

use key_file::{KeyFault, Keys, Role, read_keys};
use sealed_line::key_id;
use std::alloc::Global;
use std::process::Abort;
use std::test::Fail;

/// A file with two keys under one name.
const FILE: &str =
    "# keys of the sites\n\nsite-2 feed 0000000000000000000000000000000000000000000000000000000000000001\r\nsite-2 feed 0000000000000000000000000000000000000000000000000000000000000002\nreports.example_org read 00000000000000000000000000000000000000000000000000000000000000ff";

/// What a file is refused with, where it is.
fn fault_of(alloc: Global, text: &str) -> Option<KeyFault> {
    read_keys(alloc, text.as_bytes()).err()
}

/// The file's keys under a name: what who has the first may do, and the last byte of its secret.
fn dialed(keys: &Keys, name: &str) -> Option<(Role, u8)> {
    let key = keys.dialing(name.as_bytes())?;
    Some((key.role(), key.secret()[31]))
}

/// What who comes in with a secret that ends with this byte may do.
fn let_in(keys: &Keys, last: u8) -> Option<Role> {
    let mut secret = [0; 32];
    secret[31] = last;
    Some(keys.letting_in(&key_id(&secret))?.role())
}

#[test]
fn keys_are_found_by_name_and_by_id(rt: HostRuntime) -> Result<(), Fail> {
    let keys = read_keys(rt.alloc(), FILE.as_bytes())?;
    assert_eq!(rt; dialed(&keys, "site-2"), Some((Role::Feed, 1)));
    assert_eq!(rt;
        dialed(&keys, "reports.example_org"),
        Some((Role::Read, 255))
    );
    assert_eq!(rt; dialed(&keys, "site-3"), None);
    assert_eq!(rt; let_in(&keys, 2), Some(Role::Feed));
    assert_eq!(rt; let_in(&keys, 255), Some(Role::Read));
    assert_eq!(rt; let_in(&keys, 3), None);
    Ok(())
}

/// The second line of a file is the first bad one.
fn assert_bad(rt: &impl Abort, alloc: Global, line: &str) -> Result<(), Fail> {
    let text = format!(in alloc; "# keys\n{line}\nbad, too\n")?;
    assert_eq!(rt; fault_of(alloc, text.as_str()), Some(KeyFault::BadLine(2)));
    Ok(())
}

#[test]
fn other_lines_are_bad(rt: HostRuntime) -> Result<(), Fail> {
    let alloc = rt.alloc();
    for line in [
        "site-2 feed 00000000000000000000000000000000000000000000000000000000000000FF",
        "site-2 feed 000000000000000000000000000000000000000000000000000000000000000",
        "site-2 feed 00000000000000000000000000000000000000000000000000000000000000011",
        "site-2 pull 0000000000000000000000000000000000000000000000000000000000000001",
        "site/2 feed 0000000000000000000000000000000000000000000000000000000000000001",
        " feed 0000000000000000000000000000000000000000000000000000000000000001",
        "site-2  feed 0000000000000000000000000000000000000000000000000000000000000001",
        "site-2 feed 0000000000000000000000000000000000000000000000000000000000000001 ",
        "xxxxxxxxxxxxxxxxxxxxxxxxxxxxxxxxxxxxxxxxxxxxxxxxxxxxxxxxxxxxxxxxx feed 0000000000000000000000000000000000000000000000000000000000000001",
    ] {
        assert_bad(&rt, alloc, line)?;
    }
    Ok(())
}

#[test]
fn a_file_without_keys_has_none(rt: HostRuntime) -> Result<(), Fail> {
    let keys = read_keys(rt.alloc(), b"")?;
    assert_eq!(rt; dialed(&keys, "site-2"), None);
    assert_eq!(rt; KeyFault::NoMemory.number(), 5);
    Ok(())
}
