//! Where a peer is reached.

ghost use Rattle.std.specs.Prelude.{◌≡◌, ◌↔◌, ◌++◌, IfSome, IsTrue, List, MatchOption, OnOk, ℕ, string_bytes};
ghost use Rattle.std.specs.Borrow.{Bor};
ghost use Rattle.site_address.specs.Address.{NamesAddress};
ghost use Rattle.site_address.specs.Peer.{IsName, NamesPeer, NamesThere, is_elsewhere, is_there, peer_text};
ghost use Rattle.site_address.specs.declared.address.Address.{Address};
ghost use Rattle.site_address.specs.declared.host.HostPort.{HostPort};
ghost use Rattle.site_address.specs.declared.peer.PeerAddress.{PeerAddress as AnyPeer};
ghost use Rattle.site_address.specs.declared.peer.PeerAddress.TheVariants.{Here, There};

use super::address::{Address, address_of, has_slash};
use super::host::{HostPort, host_port_of, is_plain};
use std::alloc::AllocError;

/// Where a peer, or a site that is fed, is reached: on this machine, or at another with a key.
#[derive(Clone, Copy, Debug, PartialEq, Eq)]
pub enum PeerAddress<'a> {
    /// On this machine.
    Here(Address<'a>),
    /// At a port of a host, from 1 to 65,535, by a connection that a key seals.
    There {
        /// The key's name: 1 to 64 letters, digits, `-`, `.` or `_`.
        key: &'a str,
        at: HostPort<'a>,
    },
}

impl<'a> PeerAddress<'a> {
    /// Writes the address as a word names it. It costs O(n) for its length.
    pub fn write(self, text: &mut String) -> Result<(), AllocError>
        ensures { OnOk result (string_bytes text.new ≡ string_bytes text.old ++ peer_text self.entry) }
    {
        match self {
            PeerAddress::Here(address) => address.write(text),
            PeerAddress::There { key, at } => {
                write!(text, "{key}@")?;
                at.write(text)
            }
        }
    }
}

/// The address that a word names: `NAME@HOST:PORT`, with NAME of 1 to 64 letters, digits, `-`, `.` or `_` and a port
/// from 1, where the word has an `@` and no slash, else as `address_of`. Nothing where it names none. What is written
/// of the address names it again. It costs O(n) for n bytes.
pub fn peer_of(word: &str) -> Option<PeerAddress<'_>>
    ensures named { MatchOption result ((peer : AnyPeer) → ¬ NamesPeer word.now peer) (NamesPeer word.now) }
    ensures told { IfSome result (λ peer. (is_there word.now ≡ is_elsewhere peer) × NamesPeer (peer_text peer) peer) }
{
    match there(word) {
        Some(peer) => Some(peer),
        None => here(word),
    }
}

/// Whether a word can only name an address on another machine: it has an `@` and no slash.
pub fn is_there(word: &str) -> bool
    ensures { result ≡ is_there word.now }
{
    !has_slash(word) && word.as_bytes().contains(&b'@')
}

/// The address on this machine that a word names.
fn here(word: &str) -> Option<PeerAddress<'_>>
    ensures { MatchOption result ((address : Address) → ¬ NamesAddress word.now address)
        (λ peer. (address : Address) × (peer ≡ Here address) × NamesAddress word.now address) }
{
    match address_of(word) {
        Some(address) => Some(PeerAddress::Here(address)),
        None => None,
    }
}

/// The address on another machine that a word names.
fn there(word: &str) -> Option<PeerAddress<'_>>
    ensures { MatchOption result ((key : List ℕ) (at : HostPort) → ¬ NamesThere word.now key at)
        (λ peer. (key : Bor (List ℕ)) × (at : HostPort) × (peer ≡ There key at) × NamesThere word.now key.now at) }
{
    let Some((key, rest)) = word.split_once('@') else {
        return None;
    };
    if !is_name(key) {
        return None;
    }
    let Some(at) = host_port_of(rest) else {
        return None;
    };
    if at.port == 0 {
        return None;
    }
    Some(PeerAddress::There { key, at })
}

/// Whether a word is the name of a key: 1 to 64 letters, digits, `-`, `.` or `_`.
fn is_name(word: &str) -> bool
    ensures { IsTrue result ↔ IsName word.now }
{
    !word.is_empty() && word.len() <= 64 && is_plain(word)
}
