//! The file of keys on disk.

use key_file::{KeyFault, Keys};
use key_files::{FileOwner, open_keys, owned_keys};
use std::alloc::Global;
use std::fs;
use std::fs::Permissions;
use std::os::unix::fs::PermissionsExt;
use std::test::Fail;

/// A file with one key.
const FILE: &str = "site-2 feed 0102030405060708090a0b0c0d0e0f101112131415161718191a1b1c1d1e1f20\n";

/// What a file of this mode and user is refused with, where the user 7 runs.
fn refused(alloc: Global, mode: u32, user: u32) -> Option<KeyFault> {
    owned_keys(alloc, FileOwner { mode, user }, 7, FILE.as_bytes()).err()
}

#[test]
fn a_file_is_the_users_own(rt: HostRuntime) {
    let alloc = rt.alloc();
    assert_eq!(rt; refused(alloc, 0o100600, 7), None);
    assert_eq!(rt; refused(alloc, 0o100400, 7), None);
    assert_eq!(rt; refused(alloc, 0o100640, 7), Some(KeyFault::Open));
    assert_eq!(rt; refused(alloc, 0o100602, 7), Some(KeyFault::Open));
    assert_eq!(rt; refused(alloc, 0o100610, 7), Some(KeyFault::Open));
    assert_eq!(rt; refused(alloc, 0o100600, 8), Some(KeyFault::Open));
    assert_eq!(rt; refused(alloc, 0o100600, 0), Some(KeyFault::Open));
}

/// Whether a file's key is found, or why not.
fn found(keys: Result<Keys, KeyFault>) -> Result<bool, KeyFault> {
    match keys {
        Ok(keys) => Ok(keys.dialing(b"site-2").is_some()),
        Err(fault) => Err(fault),
    }
}

#[test]
fn a_file_on_disk_is_read(rt: HostRuntime) -> Result<(), Fail> {
    let alloc = rt.alloc();
    fs::write(&rt, "keys.tmp", FILE.as_bytes())?;
    fs::set_permissions(&rt, "keys.tmp", Permissions::from_mode(0o600))?;
    let own = found(open_keys(&rt, alloc, "keys.tmp"));
    fs::set_permissions(&rt, "keys.tmp", Permissions::from_mode(0o644))?;
    let open = found(open_keys(&rt, alloc, "keys.tmp"));
    fs::remove_file(&rt, "keys.tmp")?;
    let none = found(open_keys(&rt, alloc, "keys.tmp"));
    assert_eq!(rt; own, Ok(true));
    assert_eq!(rt; open, Err(KeyFault::Open));
    assert_eq!(rt; none, Err(KeyFault::ReadFault));
    Ok(())
}

#[test]
fn a_file_has_a_limit(rt: HostRuntime) -> Result<(), Fail> {
    let alloc = rt.alloc();
    let most = super::bytes::times(alloc, b'\n', 1_048_577)?;
    fs::write(&rt, "long_keys.tmp", most.as_slice())?;
    fs::set_permissions(&rt, "long_keys.tmp", Permissions::from_mode(0o600))?;
    let long = found(open_keys(&rt, alloc, "long_keys.tmp"));
    fs::write(&rt, "long_keys.tmp", b"no key\n")?;
    let bad = found(open_keys(&rt, alloc, "long_keys.tmp"));
    fs::remove_file(&rt, "long_keys.tmp")?;
    assert_eq!(rt; long, Err(KeyFault::ReadFault));
    assert_eq!(rt; bad, Err(KeyFault::BadLine(1)));
    Ok(())
}
