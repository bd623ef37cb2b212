//! The group commit of a site: operations of several requests are held, then kept and published together, and only then
//! are the requests answered.

ghost use Rattle.std.specs.Prelude.{◌≡◌, ◌↔◌, ◌<◌, [], IfOk, IsTrue, MatchResult, None, OnErr, OnOk, length, true};
ghost use Rattle.std.specs.Arc.{arc_value};
ghost use Rattle.replica_core.specs.JournalLaws.{IsPartOf};
ghost use Rattle.site_serve.specs.Acknowledged.{AddsOne, HoldsAsk, asker_of};
ghost use Rattle.site_serve.specs.Answered.{AreAnswered};
ghost use Rattle.site_serve.specs.Openings.{HasShown};
ghost use Rattle.site_shared.specs.Accounts.{receipt_of, record_of};
ghost use Rattle.site_shared.specs.Publishes.{arrive};

use super::ask::{Answer, Ask};
use super::opening::{Opening, OwnLedger};
use super::places::Places;
use super::requests::{Published, Waiter, hold_ask, reply_all, shared};
use crossbeam_channel::Sender;
use site_ledger::{Keeps, LedgerFault, Remains};
use site_shared::DeskFault;
use std::alloc::Global;
use std::marker::Model;
use std::sync::Wait;

/// How many requests are committed together at most, by one sync.
pub const BATCH: usize = 4096;

/// The journal failed: nothing more is published or answered.
#[derive(Drop)]
pub struct NotKept;

/// The ledger of an opening, and all who wait until what is held for them is kept and published: a group commit
/// (DeWitt, Katz, Olken, Shapiro, Stonebraker and Wood 1984). Whatever was held for one of them is among what the
/// ledger has. Contracts see what the ledger has, and who waits.
pub struct GroupCommit<J: Opening, K: Keeps> {
    ledger: OwnLedger<J, K>,
    waiters: Vec<Waiter>,
}

impl<J: Opening, K: Keeps> Model for GroupCommit<J, K> {
    ghost use Rattle.std.specs.Prelude.{◌≤◌, All, vec_capacity};
    ghost use Rattle.site_serve.specs.Acknowledged.{Group, IsHeldBy};

    ghost Value = { Group K };

    ghost view = { λ group. record { entries = group.ledger; waiters = group.waiters.items } };

    ghost invariant = { λ group. All (λ waiter. IsHeldBy group.ledger.account waiter.held) group.waiters.items
        × (4096 ≤ vec_capacity group.waiters) };
}

impl<J: Opening, K: Keeps> GroupCommit<J, K> {
    /// The ledger, for which nobody waits. Where memory is refused it is given back.
    pub fn new(alloc: Global, ledger: OwnLedger<J, K>) -> Result<GroupCommit<J, K>, OwnLedger<J, K>>
        ensures { MatchResult result
            (λ group. group ≡ record { entries = ledger; waiters = [] }) (λ given. given ≡ ledger) }
    {
        match Vec::with_capacity(alloc, BATCH) {
            Ok(waiters) => Ok(GroupCommit { ledger, waiters }),
            Err(_) => Err(ledger),
        }
    }

    /// Whether one more request may wait.
    pub fn has_room(&self) -> bool
        ensures { IsTrue result ↔ (length self.now.waiters < BATCH) }
    {
        self.waiters.len() < BATCH
    }

    /// Whether nobody waits.
    pub fn is_idle(&self) -> bool
        ensures { IsTrue result ↔ (self.now.waiters ≡ []) }
    {
        self.waiters.is_empty()
    }

    /// Whether an operation is held.
    pub fn has_held(&self) -> bool
        ensures { IsTrue result ↔ (0 < length self.now.entries.account.held) }
    {
        self.ledger.held_count() > 0
    }

    /// How many bytes keep the operations, where a journal does.
    pub fn kept_bytes(&self) -> Option<u64> {
        self.ledger.kept_bytes()
    }

    /// Holds the operations of a request, whose sender waits from now on, after those who wait already.
    pub fn hold(&mut self, ask: Ask)
        requires { length self.old.waiters < BATCH }
        ensures { AddsOne (asker_of ask) (HoldsAsk ask self.old.entries.account self.new.entries.account)
            self.old.waiters self.new.waiters }
    {
        let waiter = hold_ask(&mut self.ledger, ask);
        self.waiters.push_reserved(waiter);
    }

    /// Keeps what is held, publishes it, and then answers all who wait. If it can't be kept nobody is answered.
    /// Afterwards nobody waits.
    pub fn publish<R: Wait>(
        &mut self,
        rt: &R,
        alloc: Global,
        places: &mut Places<J>,
        pullers: &[Sender<Answer<J>, Global>],
    ) -> Result<Published<J>, NotKept>
        ensures none { self.new.waiters ≡ [] }
        ensures last { IfOk result (λ published. IfOk published
            (λ receipt. arc_value receipt ≡ receipt_of self.new.entries.account None)) }
        ensures shown { IfOk result (λ published. IfOk published
            (λ receipt. IsPartOf (record_of self.old.entries.account) (arrive (arc_value receipt).published))) }
        // Each of them, and nobody else, is answered what was held for it, in the order in which they asked.
        ensures answered { OnOk result (AreAnswered places.old.sessions.items places.new.sessions.items
            (λ session. session.number) (λ session. session.outbox) self.old.waiters) }
        ensures over { OnErr result ((self.new.entries.is_over ≡ true) × (places.new ≡ places.old)) }
    {
        match publish_held(rt, alloc, &mut self.ledger) {
            Ok(published) => {
                reply_all(
                    rt,
                    alloc,
                    places,
                    pullers,
                    self.waiters.as_slice(),
                    &published,
                );
                self.waiters.clear();
                Ok(published)
            }
            Err(fault) => {
                self.waiters.clear();
                Err(fault)
            }
        }
    }

    /// Ends the ledger, as `OwnLedger::end` does. Who waits isn't answered.
    pub fn end<R: Wait>(self, rt: &R) -> Remains<K>
        ensures shown { HasShown K.survives J.had J.journal result.keeper (arc_value result.shown) }
        ensures known { J.known → K.is_known result.keeper }
    {
        let GroupCommit { ledger, waiters: _ } = self;
        ledger.end(rt)
    }
}

/// Has what is held kept, and publishes it.
fn publish_held<R: Wait, J: Opening, K: Keeps>(
    rt: &R,
    alloc: Global,
    ledger: &mut OwnLedger<J, K>,
) -> Result<Published<J>, NotKept>
    ensures last { IfOk result
        (λ published. IfOk published (λ receipt. arc_value receipt ≡ receipt_of ledger.new.account None)) }
    ensures shown { IfOk result (λ published. IfOk published
        (λ receipt. IsPartOf (record_of ledger.old.account) (arrive (arc_value receipt).published))) }
    ensures over { OnErr result (ledger.new.is_over ≡ true) }
{
    match ledger.publish(rt) {
        Ok(receipt) => Ok(shared(alloc, receipt)),
        Err(LedgerFault::NoMemory) => Ok(Err(DeskFault::NoMemory(0))),
        Err(LedgerFault::NotKept) => Err(NotKept),
    }
}
