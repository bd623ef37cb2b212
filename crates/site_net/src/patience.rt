//! How long a site waits for the other side of a connection.

ghost use Rattle.std.specs.Prelude.{◌↔◌, IsTrue};
ghost use Rattle.std.specs.Duration.{as_nanos};
ghost use Rattle.site_net.specs.Patience.{IsOver};

use std::time::Duration;

/// How long a site waits for the other side of a connection.
#[derive(Clone, Copy)]
pub struct Patience {
    /// For the first line, for the rest of a line that has begun, or until the other side takes in some of what it is
    /// sent.
    pub limit: Duration,
    /// For the next line; without end where there is no limit.
    pub idle: Option<Duration>,
}

/// What is awaited of the other side.
#[derive(Clone, Copy, Debug, PartialEq, Eq)]
pub enum Awaited {
    /// Its first line.
    FirstLine,
    /// The rest of a line.
    RestOfLine,
    /// Its next line.
    NextLine,
}

impl Patience {
    /// Whether the patience is at its end once it was waited for so long.
    pub fn is_over(self, awaited: Awaited, waited: Duration) -> bool
        ensures { IsTrue result ↔ IsOver self awaited (as_nanos waited) }
    {
        match (awaited, self.idle) {
            (Awaited::FirstLine | Awaited::RestOfLine, _) => {
                self.limit.as_nanos() <= waited.as_nanos()
            }
            (Awaited::NextLine, Some(idle)) => idle.as_nanos() <= waited.as_nanos(),
            (Awaited::NextLine, None) => false,
        }
    }
}
