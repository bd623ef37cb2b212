//! Names of running sites.

ghost use Rattle.std.specs.Prelude.{◌≡◌, MatchOption};
ghost use Rattle.console.specs.Pulls.{NamesSite, is_site_name};
ghost use Rattle.site_address.specs.declared.address.Address.{Address as AnyAddress};

use site_address::{Address, address_of};

/// Whether a name is that of a running site: it begins with `@`.
pub fn is_site_name(name: &str) -> bool
    ensures { result ≡ is_site_name name.now }
{
    name.as_bytes().first() == Some(&b'@')
}

/// The address that a name has behind its `@`.
pub fn site_of(name: &str) -> Option<Address<'_>>
    ensures { MatchOption result ((address : AnyAddress) → ¬ NamesSite name.now address) (NamesSite name.now) }
{
    address_of(name.strip_prefix("@")?)
}
