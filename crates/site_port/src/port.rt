//! A site, as a session or a pull sees it.

ghost use Rattle.std.specs.Prelude.{◌≤◌, IfErr, IfOk, vec_len};
ghost use Rattle.review_ops.specs.Draft.{deed_of};
ghost use Rattle.site_port.specs.Ports.{Call, Reply, takes_in, lacks, reports, looks, stamped, lacked, judged, looked};
ghost use Rattle.site_port.specs.Ports.{reply_by, IsLookingFault};
ghost use Rattle.site_port.specs.Sinks.{Offer, Uptake, at_time, clocks, fronts, hands, reached, took, uptake_by};
ghost use Rattle.site_port.specs.Sinks.{uptake_of};

use super::fault::{PortFault, SinkFault};
use ready_core::Verdicts;
use replica_core::{Front, Missing, Replica};
use review_ops::{Draft, Op, Stamp};

/// What a session asks of a site. A port has a relation of its own between what it is, what it is asked, what it
/// replies and what it is then. Only an intake may answer `ClockSpent` and `BadBody`.
pub trait Port {
    /// From the old state a call may be replied to so, and leave the new state.
    ghost gives: { Self → Call → Reply → Self → Type 0 };

    /// Stamps a body and takes it in, and answers the stamp.
    fn intake(&mut self, draft: Draft) -> Result<Stamp, PortFault>
        ensures { gives self.old (takes_in (deed_of draft)) (reply_by stamped result) self.new };

    /// The operations that a front lacks, at most 256 of them, and whether others are left.
    fn missing(&mut self, front: &Front) -> Result<Missing, PortFault>
        ensures given { gives self.old (lacks front.now)
            (reply_by (λ missing. lacked missing.ops.items missing.more) result) self.new }
        ensures few { IfOk result (λ missing. vec_len missing.ops ≤ 256) }
        ensures fault { IfErr result IsLookingFault };

    /// Which items are ready, and why each other one isn't.
    fn report(&mut self) -> Result<Verdicts, PortFault>
        ensures given { gives self.old reports (reply_by judged result) self.new }
        ensures fault { IfErr result IsLookingFault };

    /// A copy of the record.
    fn look(&mut self) -> Result<Replica, PortFault>
        ensures given { gives self.old looks (reply_by looked result) self.new }
        ensures fault { IfErr result IsLookingFault };
}

/// What a pull hands operations to. A sink has a relation of its own, as a port has.
pub trait Sink {
    /// From the old state an offer may be taken up so, and leave the new state.
    ghost sinks: { Self → Offer → Uptake → Self → Type 0 };

    /// How far the record goes without a gap.
    fn front(&mut self) -> Result<Front, SinkFault>
        ensures { sinks self.old fronts (uptake_by reached result) self.new };

    /// The greatest time of the record's operations, or 0 where it has none.
    fn latest_time(&mut self) -> Result<u64, SinkFault>
        ensures { sinks self.old clocks (uptake_by at_time result) self.new };

    /// Takes these operations, in their order. Where it is refused, some of them may have been taken.
    fn take_all(&mut self, ops: Vec<Op>) -> Result<(), SinkFault>
        ensures { sinks self.old (hands ops.items) (uptake_of result) self.new };
}
