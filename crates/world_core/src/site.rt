//! A site of a world.

ghost use Rattle.std.specs.Prelude.{◌≡◌, ◌<◌, ◌≤◌, MatchResult, IfOk, OnOk, OnErr, length, take};
ghost use Rattle.review_ops.specs.Draft.{deed_of};
ghost use Rattle.replica_core.specs.Journal.{arrived, all_arrived};
ghost use Rattle.world_core.specs.World.{new_site};
ghost use Rattle.world_core.specs.Step.{IsIntake, IsDelivery, IsRestart};

use super::event::{Reply, WorldFault};
use lattice_core::NoMemory;
use replica_core::{Partly, Replica};
use review_ops::{Body, Draft, Op};
use std::alloc::{Allocator, Global};
use std::marker::Model;

/// A site: its replica, what it saved last, and the number of its run. A journal only grows between restarts, so what
/// was saved is the first so many of its arrivals, and only their number is kept.
#[derive(Drop)]
pub struct Site<A: Allocator + Copy = Global> {
    replica: Replica<A>,
    saved: usize,
    start: u32,
}

impl<A: Allocator + Copy> Model for Site<A> {
    ghost use Rattle.std.specs.Prelude.{◌≤◌, length, take};
    ghost use Rattle.world_core.specs.World.{SiteState};

    ghost Value = { SiteState };

    ghost view = { λ site. record { journal = site.replica; saved = take site.saved site.replica; start = site.start } };

    ghost invariant = { λ site. site.saved ≤ length site.replica };
}

impl<A: Allocator + Copy> Site<A> {
    /// A site with an empty journal, an empty save and start 1. It takes no memory.
    pub fn new(alloc: A) -> Site<A>
        ensures { result ≡ new_site }
    {
        Site {
            replica: Replica::new(alloc),
            saved: 0,
            start: 1,
        }
    }

    /// What the site has.
    pub fn replica(&self) -> &Replica<A>
        ensures { result.now ≡ self.now.journal }
    {
        &self.replica
    }

    /// Stamps an operation with this body as the site of the number, and takes it.
    pub fn intake(&mut self, number: u16, draft: Draft<A>) -> Result<Reply, WorldFault>
        ensures { IsIntake number (deed_of draft) self.old result self.new }
    {
        let stamp = match self.replica.next_stamp(number, self.start) {
            Ok(stamp) => stamp,
            Err(_) => return Err(WorldFault::ClockSpent),
        };
        let body = match Body::checked(draft) {
            Ok(body) => body,
            Err(cause) => return Err(WorldFault::BadBody(cause)),
        };
        match self.take(Op::new(stamp, body)) {
            Ok(()) => Ok(Reply::Took(stamp)),
            Err(NoMemory) => Err(WorldFault::NoMemory(0)),
        }
    }

    /// Takes an operation. Where memory is refused nothing changes.
    fn take(&mut self, op: Op<A>) -> Result<(), NoMemory>
        ensures ok { OnOk result (self.new ≡ record self.old { journal = arrived self.old.journal op }) }
        ensures err { OnErr result (self.new ≡ self.old) }
    {
        self.replica.take(op)?;
        Ok(())
    }

    /// Takes copies of these operations.
    pub fn deliver(&mut self, ops: &[Op<A>]) -> Result<Reply, WorldFault>
        ensures { IsDelivery ops.now self.old result self.new }
    {
        let before = self.replica.len();
        match take_copies(&mut self.replica, ops) {
            Ok(()) => Ok(Reply::Delivered(self.replica.len() - before)),
            Err(partly) => Err(WorldFault::NoMemory(partly.taken)),
        }
    }

    /// Saves the journal. It takes no memory, and costs O(1).
    pub fn save(&mut self)
        ensures { self.new ≡ record self.old { saved = self.old.journal } }
    {
        self.saved = self.replica.len();
    }

    /// Goes back to what was saved last, under this start. It costs O(1) where nothing came since, else O(n log n) for
    /// n saved operations, and O(m) for their m bytes.
    pub fn restart(&mut self, start: u32) -> Result<Reply, WorldFault>
        ensures { IsRestart start self.old result self.new }
    {
        if start <= self.start {
            return Err(WorldFault::StartUsed);
        }
        if self.go_back().is_err() {
            return Err(WorldFault::NoMemory(0));
        }
        self.start = start;
        Ok(Reply::Restarted)
    }

    /// Forgets what came since the last save. Where memory is refused nothing changes.
    fn go_back(&mut self) -> Result<(), NoMemory>
        ensures ok { OnOk result (self.new ≡ record self.old { journal = self.old.saved }) }
        ensures err { OnErr result (self.new ≡ self.old) }
    {
        if self.saved == self.replica.len() {
            return Ok(());
        }
        self.replica = replica_of_first(&self.replica, self.saved)?;
        Ok(())
    }
}

/// A replica of the first so many arrivals of another.
fn replica_of_first<A: Allocator + Copy>(
    replica: &Replica<A>,
    count: usize,
) -> Result<Replica<A>, NoMemory>
    requires { count ≤ length replica.now }
    ensures { IfOk result (λ first. first ≡ take count replica.now) }
{
    let mut first = Replica::new(replica.allocator());
    for place in 0..count {
        take_copy(&mut first, replica.arrival(place))?;
    }
    Ok(first)
}

/// Takes copies of operations, in order. Where memory is refused the first so many of them are in, and nothing else.
fn take_copies<A: Allocator + Copy>(replica: &mut Replica<A>, ops: &[Op<A>]) -> Result<(), Partly>
    ensures { MatchResult result
        (λ _. replica.new ≡ all_arrived replica.old ops.now)
        (λ partly. (partly.taken < length ops.now) × (replica.new ≡ all_arrived replica.old (take partly.taken ops.now))) }
{
    for (taken, op) in ops.iter().enumerate() {
        if take_copy(replica, op).is_err() {
            return Err(Partly { taken });
        }
    }
    Ok(())
}

/// Takes a copy of an operation, made only where the operation is new. Where memory is refused nothing changes.
fn take_copy<A: Allocator + Copy>(replica: &mut Replica<A>, op: &Op<A>) -> Result<(), NoMemory>
    ensures ok { OnOk result (replica.new ≡ arrived replica.old op.now) }
    ensures err { OnErr result (replica.new ≡ replica.old) }
{
    if replica.has(op) {
        return Ok(());
    }
    replica.take(op.copy()?)?;
    Ok(())
}
