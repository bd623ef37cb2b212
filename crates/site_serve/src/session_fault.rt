//! How a session fails.

ghost use Rattle.std.specs.Prelude.{◌≡◌};
ghost use Rattle.site_serve.specs.SessionFaults.{name_of, number_of};

use gossip_line::LineFault;

/// How a session fails: as its lines do, or by what seals them.
#[derive(Clone, Copy)]
pub(super) enum SessionFault {
    /// 1 to 8, those of `LineFault`.
    Line(LineFault),
    /// 10: a line has a bad seal, or is too long.
    BadSeal,
    /// 11: the first line names no key of the site, or the key was revoked.
    NoKey,
}

impl SessionFault {
    /// The fault's number, of the part `session`.
    pub(super) fn number(&self) -> u8
        ensures { result ≡ number_of self.now }
    {
        match self {
            SessionFault::Line(fault) => fault.number(),
            SessionFault::BadSeal => 10,
            SessionFault::NoKey => 11,
        }
    }

    /// The fault's name.
    pub(super) fn name(&self) -> &'static str
        ensures { result.now ≡ name_of self.now }
    {
        match self {
            SessionFault::Line(fault) => fault.name(),
            SessionFault::BadSeal => "BadSeal",
            SessionFault::NoKey => "NoKey",
        }
    }
}
