//! How a shell reads the bytes of a template.

ghost use Rattle.std.specs.Prelude.{◌≡◌};
ghost use Rattle.enqueue_lines.specs.Shell.{after_bare, after_byte, after_bytes};

/// How a POSIX shell reads the next byte of a text.
#[derive(Clone, Copy, Debug, PartialEq, Eq)]
pub enum ShellState {
    /// Outside quotes.
    Bare,
    /// Behind a dollar outside quotes.
    AfterDollar,
    /// Behind a dollar and a backslash outside quotes.
    DollarAfterBackslash,
    /// Behind a backslash outside quotes.
    AfterBackslash,
    /// Within single quotes.
    Single,
    /// Within double quotes.
    Double,
    /// Within double quotes, behind a backslash.
    DoubleAfterBackslash,
}

impl ShellState {
    /// How it reads the byte after these, where it reads the first of them so.
    pub(super) fn after_bytes(self, bytes: &[u8]) -> ShellState
        ensures { result ≡ after_bytes self bytes.now }
    {
        let mut state = self;
        for byte in bytes {
            state = state.after_byte(*byte);
        }
        state
    }

    /// How it reads the byte after this one.
    fn after_byte(self, byte: u8) -> ShellState
        ensures { result ≡ after_byte self byte }
    {
        match self {
            ShellState::Bare => after_bare(byte),
            ShellState::AfterDollar => after_dollar(byte),
            ShellState::DollarAfterBackslash => after_dollar_and_backslash(byte),
            ShellState::AfterBackslash => ShellState::Bare,
            ShellState::Single => after_single(byte),
            ShellState::Double => after_double(byte),
            ShellState::DoubleAfterBackslash => ShellState::Double,
        }
    }
}

/// How it reads the byte after one outside quotes.
fn after_bare(byte: u8) -> ShellState
    ensures { result ≡ after_bare byte }
{
    match byte {
        b'\'' => ShellState::Single,
        b'"' => ShellState::Double,
        b'\\' => ShellState::AfterBackslash,
        b'$' => ShellState::AfterDollar,
        _ => ShellState::Bare,
    }
}

/// How it reads the byte after one behind a dollar.
fn after_dollar(byte: u8) -> ShellState
    ensures { result ≡ after_byte ShellState.AfterDollar byte }
{
    match byte {
        b'\\' => ShellState::DollarAfterBackslash,
        _ => after_bare(byte),
    }
}

/// How it reads the byte after one behind a dollar and a backslash: a line end is left out with its backslash.
fn after_dollar_and_backslash(byte: u8) -> ShellState
    ensures { result ≡ after_byte ShellState.DollarAfterBackslash byte }
{
    match byte {
        b'\n' => ShellState::AfterDollar,
        _ => ShellState::Bare,
    }
}

/// How it reads the byte after one within single quotes, where a backslash is a byte like others.
fn after_single(byte: u8) -> ShellState
    ensures { result ≡ after_byte ShellState.Single byte }
{
    match byte {
        b'\'' => ShellState::Bare,
        _ => ShellState::Single,
    }
}

/// How it reads the byte after one within double quotes.
fn after_double(byte: u8) -> ShellState
    ensures { result ≡ after_byte ShellState.Double byte }
{
    match byte {
        b'"' => ShellState::Bare,
        b'\\' => ShellState::DoubleAfterBackslash,
        _ => ShellState::Double,
    }
}
