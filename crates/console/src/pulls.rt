//! Why the record of a running site isn't pulled.

ghost use Rattle.std.specs.Prelude.{◌≡◌};
ghost use Rattle.console.specs.Pulls.{name_of, number_of};

use gossip_line::LineFault;

/// Why the record of a running site isn't pulled.
#[derive(Clone, Copy, Debug, PartialEq, Eq)]
pub enum PullFault {
    /// 1 to 6: the session failed, as a pull does. `Closed`, `NotListed` and `FarAhead` never come.
    Failed(LineFault),
    /// 8: nothing that answers was reached at the address.
    Unreachable,
    /// 10: the site said after the last answer that may come that more is left.
    NoEnd,
}

impl PullFault {
    /// The fault's number. 9 is that of a name without an address.
    pub fn number(&self) -> u8
        ensures { result ≡ number_of self.now }
    {
        match self {
            PullFault::Failed(fault) => fault.number(),
            PullFault::Unreachable => 8,
            PullFault::NoEnd => 10,
        }
    }

    /// The fault's name.
    pub fn name(&self) -> &'static str
        ensures { result.now ≡ name_of self.now }
    {
        match self {
            PullFault::Failed(fault) => fault.name(),
            PullFault::Unreachable => "Unreachable",
            PullFault::NoEnd => "NoEnd",
        }
    }
}
