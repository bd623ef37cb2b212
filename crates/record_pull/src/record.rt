//! A record that operations are pulled into.

ghost use Rattle.std.specs.Prelude.{◌≡◌, ◌<◌, ℕ, OnErr, OnOk, length, take};
ghost use Rattle.replica_core.specs.Journal.{all_arrived};
ghost use Rattle.snapshot_text.specs.Sound.{AreSoundOperations};

use lattice_core::NoMemory;
use pull_guard::latest_time;
use replica_core::{Front, Replica};
use review_ops::Op;
use site_port::{Sink, SinkFault};
use std::marker::Model;

/// A record that operations are pulled into. It is never closed.
#[derive(Drop)]
pub struct Record {
    replica: Replica,
}

impl Model for Record {
    ghost use Rattle.std.specs.Prelude.{List};
    ghost use Rattle.review_ops.specs.Operation.{Operation};

    ghost Value = { List Operation };

    ghost view = { λ held. held.replica };
}

impl Record {
    /// The record of a replica.
    pub fn new(replica: Replica) -> Record
        ensures { result ≡ replica }
    {
        Record { replica }
    }

    /// Its replica.
    pub fn into_replica(self) -> Replica
        ensures { result ≡ self }
    {
        self.replica
    }
}

impl Sink for Record {
    ghost use Rattle.record_pull.specs.Pulling.{Gathers};

    ghost sinks = { Gathers };

    fn front(&mut self) -> Result<Front, SinkFault> {
        match self.replica.front() {
            Ok(front) => Ok(front),
            Err(_) => Err(SinkFault::NoMemory),
        }
    }

    fn latest_time(&mut self) -> Result<u64, SinkFault> {
        Ok(latest_time(&self.replica))
    }

    fn take_all(&mut self, ops: Vec<Op>) -> Result<(), SinkFault> {
        match gather(&mut self.replica, ops) {
            Ok(()) => Ok(()),
            Err(_) => Err(SinkFault::NoMemory),
        }
    }
}

/// Takes operations into a replica, in their order. Where memory is refused the first so many of them are in, not all,
/// and nothing else.
fn gather(replica: &mut Replica, ops: Vec<Op>) -> Result<(), NoMemory>
    ensures sound { OnOk result (AreSoundOperations ops.items) }
    ensures ok { OnOk result (replica.new ≡ all_arrived replica.old ops.items) }
    ensures err { OnErr result ((count : ℕ) × (count < length ops.items)
        × (replica.new ≡ all_arrived replica.old (take count ops.items))) }
{
    for op in ops {
        prove!(op.stamp().seq() >= 1);
        prove!(op.body().change() >= 1);
        replica.take(op)?;
    }
    Ok(())
}
