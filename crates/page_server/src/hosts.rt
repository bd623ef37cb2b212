//! Which hosts this server answers for.

ghost use Rattle.std.specs.Prelude.{◌≡◌, map, string_bytes};
ghost use Rattle.std.specs.Char.{is_ascii_digit};
ghost use Rattle.std.specs.List.{list_all, list_any};
ghost use Rattle.std.specs.Str.{str_eq_ignore_ascii_case};
ghost use Rattle.page_server.specs.Hosts.{is_own, is_port, names_host, own_names};

/// Whether the host of a request, with or without a port, is this machine or one of these hosts. Case doesn't matter in
/// ASCII letters. A page of another site whose name was made to lead here (DNS rebinding) names another host. It costs
/// O(n) for n hosts.
pub fn is_own(hosts: &[String], value: &[u8]) -> bool
    ensures { result ≡ is_own (map string_bytes hosts.now) value.now }
{
    is_here(value) || is_given(hosts, value)
}

/// Whether the host of a request is this machine.
fn is_here(value: &[u8]) -> bool
    ensures { result ≡ list_any (λ host. names_host host value.now) own_names }
{
    names(b"localhost", value) || names(b"127.0.0.1", value) || names(b"[::1]", value)
}

/// Whether the host of a request is one of these.
fn is_given(hosts: &[String], value: &[u8]) -> bool
    ensures { result ≡ list_any (λ host. names_host (string_bytes host) value.now) hosts.now }
{
    hosts.iter().any(|host| names(host.as_bytes(), value))
}

/// Whether a value is this host, with or without a port.
fn names(host: &[u8], value: &[u8]) -> bool
    ensures { result ≡ names_host host.now value.now }
{
    match value.split_at_checked(host.len()) {
        Some((front, rest)) => is_same(front, host) && is_port(rest),
        None => false,
    }
}

/// Whether two texts are the same but for the case of ASCII letters.
fn is_same(text: &[u8], other: &[u8]) -> bool
    ensures { result ≡ str_eq_ignore_ascii_case text.now other.now }
{
    text.eq_ignore_ascii_case(other)
}

/// Whether nothing follows a host, or a port.
fn is_port(rest: &[u8]) -> bool
    ensures { result ≡ is_port rest.now }
{
    rest.is_empty() || (rest[0] == b':' && are_digits(&rest[1..]))
}

/// Whether a text is digits.
fn are_digits(text: &[u8]) -> bool
    ensures { result ≡ list_all is_ascii_digit text.now }
{
    text.iter().all(|byte| byte.is_ascii_digit())
}
