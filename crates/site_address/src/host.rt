//! A host and a port, at which a site on another machine is reached.

ghost use Rattle.std.specs.Prelude.{◌≡◌, ◌↔◌, ◌++◌, IfSome, IsTrue, MatchOption, OnOk, ℕ, string_bytes};
ghost use Rattle.std.specs.List.{list_all};
ghost use Rattle.site_address.specs.Host.{IsHost, IsShort, IsV6, NamesHostPort, NamesInBrackets, NamesPlainly};
ghost use Rattle.site_address.specs.Host.{has_colon, host_port_text, is_plain_byte, is_v6_byte};
ghost use Rattle.site_address.specs.declared.host.HostPort.{HostPort as AnyHostPort};

use std::alloc::AllocError;

/// A host and a port, as `HOST:PORT` or `[V6]:PORT` names them.
#[derive(Clone, Copy, Debug, PartialEq, Eq)]
pub struct HostPort<'a> {
    /// A name, or an address of IPv4 or, without its brackets, of IPv6.
    pub host: &'a str,
    /// 0 means a free port, chosen by the system, to listen at.
    pub port: u16,
}

impl<'a> HostPort<'a> {
    /// Writes the host and the port as a word names them, a host with a colon in brackets. It costs O(n) for its
    /// length.
    pub fn write(self, text: &mut String) -> Result<(), AllocError>
        ensures { OnOk result (string_bytes text.new ≡ string_bytes text.old ++ host_port_text self.entry) }
    {
        let HostPort { host, port } = self;
        if has_colon(host) {
            write!(text, "[{host}]:{port}")
        } else {
            write!(text, "{host}:{port}")
        }
    }
}

/// The host and the port that a word names, as `HOST:PORT` or `[V6]:PORT`: HOST is letters, digits, `-`, `.` and `_`,
/// at least one; V6 is hex digits, colons and dots, with at least one colon; PORT is a decimal from 0 to 65,535.
/// Nothing where it names none. What is written of the answer names it again. It costs O(n) for n bytes.
pub fn host_port_of(word: &str) -> Option<HostPort<'_>>
    ensures named { MatchOption result ((at : AnyHostPort) → ¬ NamesHostPort word.now at) (NamesHostPort word.now) }
    ensures written { IfSome result (λ at. NamesHostPort (host_port_text at) at) }
{
    match plainly(word) {
        Some(at) => Some(at),
        None => in_brackets(word),
    }
}

/// The host and the port that a word names without brackets.
fn plainly(word: &str) -> Option<HostPort<'_>>
    ensures { MatchOption result ((at : AnyHostPort) → ¬ NamesPlainly word.now at) (NamesPlainly word.now) }
{
    let Some((host, port)) = word.split_once(':') else {
        return None;
    };
    if !is_host(host) {
        return None;
    }
    with_port(host, port)
}

/// The host and the port that a word names with the host in brackets.
fn in_brackets(word: &str) -> Option<HostPort<'_>>
    ensures { MatchOption result ((at : AnyHostPort) → ¬ NamesInBrackets word.now at) (NamesInBrackets word.now) }
{
    let Some(inner) = word.strip_prefix('[') else {
        return None;
    };
    let Some((host, rest)) = inner.split_once(']') else {
        return None;
    };
    let Some(port) = rest.strip_prefix(':') else {
        return None;
    };
    if !is_v6(host) {
        return None;
    }
    with_port(host, port)
}

/// A host with the port that a word writes.
fn with_port<'a>(host: &'a str, word: &'a str) -> Option<HostPort<'a>>
    ensures { MatchOption result ((number : ℕ) → ¬ IsShort word.entry.now number)
        (λ at. (at.host ≡ host.entry) × IsShort word.entry.now at.port) }
{
    match word.parse::<u16>() {
        Ok(port) => Some(HostPort { host, port }),
        Err(_) => None,
    }
}

/// Whether a word is a name of a host, or an address of IPv4: letters, digits, `-`, `.` and `_`, at least one.
fn is_host(word: &str) -> bool
    ensures { IsTrue result ↔ IsHost word.now }
{
    !word.is_empty() && is_plain(word)
}

/// Whether a word has nothing but letters, digits, `-`, `.` and `_`.
pub(super) fn is_plain(word: &str) -> bool
    ensures { result ≡ list_all is_plain_byte word.now }
{
    word.as_bytes().iter().all(|byte| is_plain_byte(*byte))
}

/// Whether a byte is a letter, a digit, `-`, `.` or `_`.
fn is_plain_byte(byte: u8) -> bool
    ensures { result ≡ is_plain_byte byte }
{
    matches!(byte, b'0'..=b'9' | b'A'..=b'Z' | b'a'..=b'z' | b'-' | b'.' | b'_')
}

/// Whether a word is written as an address of IPv6: hex digits, colons and dots, with at least one colon.
fn is_v6(word: &str) -> bool
    ensures { IsTrue result ↔ IsV6 word.now }
{
    has_colon(word) && is_v6_text(word)
}

/// Whether a word has nothing but hex digits, colons and dots.
fn is_v6_text(word: &str) -> bool
    ensures { result ≡ list_all is_v6_byte word.now }
{
    word.as_bytes().iter().all(|byte| is_v6_byte(*byte))
}

/// Whether a byte is a hex digit, a colon or a dot.
fn is_v6_byte(byte: u8) -> bool
    ensures { result ≡ is_v6_byte byte }
{
    matches!(byte, b'0'..=b'9' | b'A'..=b'F' | b'a'..=b'f' | b':' | b'.')
}

/// Whether a word has a colon.
fn has_colon(word: &str) -> bool
    ensures { result ≡ has_colon word.now }
{
    word.as_bytes().contains(&b':')
}
