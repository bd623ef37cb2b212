//! Where a site answers sessions.

ghost use Rattle.std.specs.Prelude.{◌≡◌, ◌++◌, IfSome, MatchOption, OnOk, string_bytes};
ghost use Rattle.site_address.specs.Address.{NamesAddress, address_text, has_slash};
ghost use Rattle.site_address.specs.declared.address.Address.{Address as AnyAddress};

use std::alloc::AllocError;

/// Where a site answers sessions.
#[derive(Clone, Copy, Debug, PartialEq, Eq)]
pub enum Address<'a> {
    /// A port of 127.0.0.1, from 1 to 65,535.
    Port(u16),
    /// The path of a Unix socket.
    Path(&'a str),
}

impl<'a> Address<'a> {
    /// Writes the address as a word names it: the port in decimal, or the path. It costs O(n) for its length.
    pub fn write(self, text: &mut String) -> Result<(), AllocError>
        ensures { OnOk result (string_bytes text.new ≡ string_bytes text.old ++ address_text self.entry) }
    {
        match self {
            Address::Port(port) => write!(text, "{port}"),
            Address::Path(path) => text.push_str(path),
        }
    }
}

/// The address that a word names: the path of a Unix socket where it has a slash, else a port in decimal, from 1 to
/// 65,535. Nothing where it is neither. It costs O(n) for n bytes.
pub fn address_of(word: &str) -> Option<Address<'_>>
    ensures { MatchOption result ((address : AnyAddress) → ¬ NamesAddress word.now address) (NamesAddress word.now) }
{
    if has_slash(word) {
        return Some(Address::Path(word));
    }
    match word.parse::<u16>() {
        Ok(0) | Err(_) => None,
        Ok(port) => Some(Address::Port(port)),
    }
}

/// Whether a word has a slash, and so is the path of a Unix socket.
pub fn has_slash(word: &str) -> bool
    ensures { result ≡ has_slash word.now }
{
    word.as_bytes().contains(&b'/')
}
