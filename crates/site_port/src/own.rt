//! A site that answers by itself: a replica, the gate that it is judged under, and a site's number and start.

ghost use Rattle.std.specs.Prelude.{◌≡◌, ◌<◌, ℕ, OnErr, OnOk, length, take};
ghost use Rattle.replica_core.specs.Journal.{all_arrived};

use super::fault::{PortFault, SinkFault};
use super::port::{Port, Sink};
use gate_rules::Gate;
use lattice_core::NoMemory;
use pull_guard::latest_time;
use ready_core::{Verdicts, evaluate};
use replica_core::{Front, Missing, Replica};
use review_ops::{Body, Draft, Op, Stamp};
use std::marker::Model;

/// How many operations are answered at once.
const ANSWER_LIMIT: usize = 256;

/// A replica that takes in operations as one site under one start, judged under a gate. It is never closed. If memory
/// is refused nothing changes, except that a prefix of the operations that are handed over may have been taken.
#[derive(Drop)]
pub struct OwnPort {
    replica: Replica,
    gate: Gate,
    site: u16,
    start: u32,
}

impl Model for OwnPort {
    ghost use Rattle.site_port.specs.OwnSite.{OwnState};

    ghost Value = { OwnState };

    ghost view = { λ own. record { journal = own.replica; gate = own.gate; site = own.site; start = own.start } };
}

impl OwnPort {
    /// A port over a replica. It takes no memory.
    pub fn new(replica: Replica, gate: Gate, site: u16, start: u32) -> OwnPort
        ensures { result ≡ record { journal = replica; gate = gate; site = site; start = start } }
    {
        OwnPort {
            replica,
            gate,
            site,
            start,
        }
    }

    /// The replica, to look at.
    pub fn replica(&self) -> &Replica
        ensures { result.now ≡ self.now.journal }
    {
        &self.replica
    }

    /// The replica.
    pub fn into_replica(self) -> Replica
        ensures { result ≡ self.journal }
    {
        self.replica
    }
}

impl Port for OwnPort {
    ghost use Rattle.site_port.specs.OwnSite.{OwnGives};

    ghost gives = { OwnGives };

    fn intake(&mut self, draft: Draft) -> Result<Stamp, PortFault> {
        let stamp = match self.replica.next_stamp(self.site, self.start) {
            Ok(stamp) => stamp,
            Err(_) => return Err(PortFault::ClockSpent),
        };
        let body = match Body::checked(draft) {
            Ok(body) => body,
            Err(cause) => return Err(PortFault::BadBody(cause)),
        };
        match self.replica.take(Op::new(stamp, body)) {
            Ok(_) => Ok(stamp),
            Err(_) => Err(PortFault::NoMemory),
        }
    }

    fn missing(&mut self, front: &Front) -> Result<Missing, PortFault> {
        let Ok(missing) = self.replica.missing(front, ANSWER_LIMIT) else {
            return Err(PortFault::NoMemory);
        };
        Ok(missing)
    }

    fn report(&mut self) -> Result<Verdicts, PortFault> {
        match evaluate(self.replica.allocator(), self.replica.state(), &self.gate) {
            Ok(verdicts) => Ok(verdicts),
            Err(_) => Err(PortFault::NoMemory),
        }
    }

    fn look(&mut self) -> Result<Replica, PortFault> {
        match self.replica.copy() {
            Ok(copied) => Ok(copied),
            Err(_) => Err(PortFault::NoMemory),
        }
    }
}

impl Sink for OwnPort {
    ghost use Rattle.site_port.specs.OwnSite.{OwnSinks};

    ghost sinks = { OwnSinks };

    fn front(&mut self) -> Result<Front, SinkFault> {
        match self.replica.front() {
            Ok(front) => Ok(front),
            Err(_) => Err(SinkFault::NoMemory),
        }
    }

    fn latest_time(&mut self) -> Result<u64, SinkFault> {
        Ok(latest_time(&self.replica))
    }

    fn take_all(&mut self, ops: Vec<Op>) -> Result<(), SinkFault> {
        match take_each(&mut self.replica, ops) {
            Ok(()) => Ok(()),
            Err(_) => Err(SinkFault::NoMemory),
        }
    }
}

/// Takes operations into a replica, in their order. Where memory is refused the first so many of them are in, not all,
/// and nothing else. It costs what `Replica::take` does for each.
pub fn take_each(replica: &mut Replica, ops: Vec<Op>) -> Result<(), NoMemory>
    ensures ok { OnOk result (replica.new ≡ all_arrived replica.old ops.items) }
    ensures err { OnErr result ((count : ℕ) × (count < length ops.items)
        × (replica.new ≡ all_arrived replica.old (take count ops.items))) }
{
    for op in ops {
        replica.take(op)?;
    }
    Ok(())
}
