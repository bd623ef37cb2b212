//! The trait of a site, as a feed sees it.

ghost use Rattle.std.specs.Prelude.{◌≡◌, Result};
ghost use Rattle.feed_client.specs.Refusals.{text_of};
ghost use Rattle.feed_client.specs.Rounds.{SiteRound, round_by};
ghost use Rattle.feed_client.specs.declared.intake.IntakeFault.{IntakeFault as Fault};
ghost use Rattle.review_ops.specs.Deed.{Deed};
ghost use Rattle.review_ops.specs.Timestamp.{Timestamp};

use replica_core::Missing;
use review_ops::{Body, Stamp};

/// Why a site refuses a body.
#[derive(Clone, Copy, Debug, PartialEq, Eq)]
pub enum Refusal {
    NoMemory,
    BadText,
    BadBody,
    ClockSpent,
    Closed,
}

/// Why a body wasn't taken in, as far as the feed knows.
#[derive(Clone, Copy, Debug, PartialEq, Eq)]
pub enum IntakeFault {
    /// The site has refused it, which changed nothing.
    Refused(Refusal),
    /// The key of the connection may only read, so that the site refuses each body. It changed nothing.
    NotAllowed,
    /// The site says that more is left, and answers nothing that it didn't before.
    NoEnd,
    /// The connection ended, or what came over it was no answer. The body may have been taken in.
    Ended,
    /// Memory was refused here. The body may have been taken in.
    NoMemory,
}

impl Refusal {
    /// The number and the name, as a session answers them after `no `.
    pub fn text(self) -> &'static str
        ensures { result.now ≡ text_of self }
    {
        match self {
            Refusal::NoMemory => "5 NoMemory",
            Refusal::BadText => "7 BadText",
            Refusal::BadBody => "8 BadBody",
            Refusal::ClockSpent => "9 ClockSpent",
            Refusal::Closed => "10 Closed",
        }
    }
}

/// A site that takes in bodies, and answers what else came to it. Each implementation gives two relations, between its
/// state before a call, the argument, the result, and its state after.
pub trait Intake {
    /// `take_in` may return the result for a body, and lead from the first state to the second.
    ghost replies: { Self → Deed → Result Timestamp Fault → Self → Type 0 };

    /// `next_round` may return the round, and lead from the first state to the second.
    ghost answers: { Self → Result SiteRound Fault → Self → Type 0 };

    /// Offers a body, and awaits the answer: the stamp under which it was taken in.
    fn take_in(&mut self, body: &Body) -> Result<Stamp, IntakeFault>
        ensures { replies self.old body.now result self.new };

    /// Asks for operations that came to the site and weren't answered yet: some of them, and whether there are more to
    /// take before the input is read on.
    fn next_round(&mut self) -> Result<Missing, IntakeFault>
        ensures { answers self.old
            (round_by (λ missing. record { ops = missing.ops.items; more = missing.more }) result) self.new };
}
