//! The key by which a feed dials a site on another machine.

use byte_ends::Drain;
use console::show_line;
use feed_client::FedSite;
use key_file::KeyFault;
use key_files::{keys_line, open_keys};
use site_address::PeerAddress;
use std::alloc::Global;
use std::rt::Files;

/// The site at an address, with the secret of its key where it is on another machine: that of the first key of the name
/// in a file of keys. Refusals: those of `open_keys`; 3 `NoKey`, no key of the file has the name.
pub fn fed_site<'n, R: Files>(
    rt: &R,
    alloc: Global,
    address: PeerAddress<'n>,
    file: &str,
) -> Result<FedSite<'n>, KeyFault> {
    match address {
        PeerAddress::Here(address) => Ok(FedSite::Here(address)),
        PeerAddress::There { key, at } => match read_secret(rt, alloc, file, key) {
            Ok(secret) => Ok(FedSite::There { at, secret }),
            Err(fault) => Err(fault),
        },
    }
}

/// The secret of the first key of a name in a file of keys.
fn read_secret<R: Files>(
    rt: &R,
    alloc: Global,
    file: &str,
    name: &str,
) -> Result<[u8; 32], KeyFault> {
    match open_keys(rt, alloc, file) {
        Ok(keys) => keys.secret_of(name.as_bytes()),
        Err(fault) => Err(fault),
    }
}

/// Reports why the key of a feed isn't there, with the name of the file of keys. Answers the exit status.
pub fn report_keys<E: Drain>(alloc: Global, fault: KeyFault, file: &str, errors: &mut E) -> u8 {
    show_line(&keys_line(alloc, fault, file), errors);
    1
}
