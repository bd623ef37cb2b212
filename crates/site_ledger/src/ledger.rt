//! The desk of a site with what keeps its operations.

ghost use Rattle.std.specs.Prelude.{◌≡◌, ◌∷◌, ◌<◌, ◌++◌, [], ℕ, List, None, IfErr, IfOk, OnErr, OnOk, false, true};
ghost use Rattle.std.specs.Prelude.{if◌then◌else◌, drop, length};
ghost use Rattle.std.specs.Arc.{arc_value};
ghost use Rattle.replica_core.specs.Journal.{has};
ghost use Rattle.review_ops.specs.Draft.{deed_of};
ghost use Rattle.review_ops.specs.Good.{IsFaultless};
ghost use Rattle.review_ops.specs.Operation.{Operation};
ghost use Rattle.site_shared.specs.Accounts.{HasStamp, IsSameOpening, RefusesIntake, flushing, holding, next_operation};
ghost use Rattle.site_shared.specs.Accounts.{receipt_of, record_of};
ghost use Rattle.site_shared.specs.Publishes.{arrive};

use crate::keeps::Keeps;
use lattice_core::NoMemory;
use replica_core::Replica;
use review_ops::{Draft, Op, Stamp};
use site_journal::KeepFault;
use site_shared::{Desk, DeskFault, Receipt};
use std::marker::Model;
use std::sync::{Arc, Wait};

/// Why a ledger doesn't publish.
#[derive(Clone, Copy, Debug, Drop, PartialEq, Eq)]
pub enum LedgerFault {
    /// Memory was refused: the operations stay held, and the next publish has them.
    NoMemory,
    /// The operations couldn't be kept. Nothing is published any more.
    NotKept,
}

/// What remains of a site that has ended.
#[derive(Drop)]
pub struct Remains<K> {
    /// What keeps its operations.
    pub keeper: K,
    /// The record that was shown last.
    pub shown: Arc<Replica>,
}

/// The desk of a site with what keeps its operations. It holds operations until they are published, all at once, and
/// has them kept first. Contracts see its desk's account, what keeps the operations, how many of those that are held
/// are kept already, and whether nothing more is kept. It is used up by `end`.
pub struct Ledger<K: Keeps> {
    desk: Desk,
    keeper: K,
    kept: usize,
    is_over: bool,
}

impl<K: Keeps> Model for Ledger<K> {
    ghost use Rattle.site_ledger.specs.Keeping.{Entries, IsKeeping};

    ghost Value = { Entries K };

    ghost view = { λ l. record { account = l.desk; keeper = l.keeper; kept = l.kept; is_over = l.is_over } };

    ghost invariant = { λ l. IsKeeping K.holds K.survives (record { account = l.desk; keeper = l.keeper; kept = l.kept; is_over = l.is_over }) };
}

impl<K: Keeps> Ledger<K> {
    ghost use Rattle.site_ledger.specs.Keeping.{IsFaithful, IsSameKeeping, KeepsOn, is_over_after, kept_ops};

    /// The ledger of a desk that has published nothing since its opening, over what has some operations.
    pub fn new(desk: Desk, keeper: K) -> Ledger<K>
        requires opened { (journal : List Operation) × (desk.published ≡ journal ∷ []) }
        requires keeper { (first : List Operation) × K.holds keeper first }
        ensures new { result ≡ record { account = desk; keeper = keeper; kept = 0; is_over = false } }
        ensures faithful { (first : List Operation) → K.holds keeper first → IsFaithful K.holds K.survives first result }
    {
        keeper.what_it_has_survives();
        Ledger {
            desk,
            keeper,
            kept: 0,
            is_over: false,
        }
    }

    /// Stamps a body and holds it, without a publish, as `Desk::hold` does.
    pub fn hold(&mut self, draft: Draft) -> Result<Stamp, DeskFault>
        ensures ok { IfOk result
            (λ stamp. let op = next_operation self.old.account (deed_of draft) in HasStamp self.old.account
            × IsFaultless (deed_of draft)
            × (self.new.account ≡ holding self.old.account (op ∷ [])) × (stamp ≡ op.stamp)) }
        ensures err { IfErr result
            (λ fault. (self.new ≡ self.old) × RefusesIntake self.old.account (deed_of draft) fault self.old.account) }
        ensures same { IsSameKeeping self.old self.new }
        ensures on { KeepsOn K.holds K.survives self.old self.new }
        ensures known { K.is_known self.old.keeper → K.is_known self.new.keeper }
    {
        self.desk.hold(draft)
    }

    /// Holds an operation, unless it was published or is held, without a publish, as `Desk::hold_new` does.
    pub fn hold_new(&mut self, op: Op) -> Result<(), NoMemory>
        ensures ok { OnOk result (self.new.account
            ≡ (if has (record_of self.old.account) op then self.old.account else holding self.old.account (op ∷ []))) }
        ensures err { OnErr result (self.new ≡ self.old) }
        ensures same { IsSameKeeping self.old self.new }
        ensures on { KeepsOn K.holds K.survives self.old self.new }
        ensures known { K.is_known self.old.keeper → K.is_known self.new.keeper }
    {
        self.desk.hold_new(op)
    }

    /// How many operations are held.
    pub fn held_count(&self) -> usize
        ensures { result ≡ length self.now.account.held }
    {
        self.desk.held().len()
    }

    /// How many bytes its keeper has, where that is a journal, as `Keeps::bytes` says.
    pub fn kept_bytes(&self) -> Option<u64> {
        self.keeper.bytes()
    }

    /// Keeps everything that is held, and then publishes it. If it can't be kept, nothing is published, now or later.
    /// Waits and costs as `Desk::flush`, and as the keeper.
    pub fn publish<R: Wait>(&mut self, rt: &R) -> Result<Receipt, LedgerFault>
        ensures ok { IfOk result (λ receipt. (self.old.is_over ≡ false) × (self.new.is_over ≡ false)
            × (self.new.account ≡ flushing self.old.account)
            × (receipt ≡ receipt_of self.new.account None)) }
        ensures err { IfErr result
            (λ fault. (self.new.account ≡ self.old.account) × (self.new.is_over ≡ is_over_after fault)) }
        ensures over { self.old.is_over ≡ true → self.new ≡ self.old }
        ensures opening { IsSameOpening self.old.account self.new.account }
        ensures on { KeepsOn K.holds K.survives self.old self.new }
        ensures known { K.is_known self.old.keeper → K.is_known self.new.keeper }
    {
        self.keep_held()?;
        match self.desk.flush(rt) {
            Ok(receipt) => {
                self.kept = 0;
                Ok(receipt)
            }
            Err(_) => Err(LedgerFault::NoMemory),
        }
    }

    /// What was published since the opening, and what of that which is held is kept, survives: whatever a crash leaves
    /// says it, after what was there at first.
    pub fn published_survives(&self)
        ensures { (first : List Operation) × K.survives self.now.keeper (first ++ kept_ops self.now) }
    {
        let _ledger = &self.desk;
    }

    /// Ends the site, as `Desk::end` does, and gives back what keeps its operations. What is held is dropped.
    pub fn end<R: Wait>(self, rt: &R) -> Remains<K>
        ensures keeper { result.keeper ≡ self.keeper }
        ensures shown { arc_value result.shown ≡ arrive self.account.published }
    {
        let Ledger {
            desk,
            keeper,
            kept: _,
            is_over: _,
        } = self;
        Remains {
            keeper,
            shown: desk.end(rt),
        }
    }

    /// Keeps the held operations that aren't kept yet.
    fn keep_held(&mut self) -> Result<(), LedgerFault>
        ensures same { self.new.account ≡ self.old.account }
        ensures ok { OnOk result
            ((self.old.is_over ≡ false) × (self.new.is_over ≡ false) × (self.new.kept ≡ length self.new.account.held)) }
        ensures err { IfErr result (λ fault. self.new.is_over ≡ is_over_after fault) }
        ensures over { self.old.is_over ≡ true → self.new ≡ self.old }
        ensures on { KeepsOn K.holds K.survives self.old self.new }
        ensures known { K.is_known self.old.keeper → K.is_known self.new.keeper }
    {
        if self.is_over {
            return Err(LedgerFault::NotKept);
        }
        let held = self.desk.held();
        let count = held.len();
        if self.kept == count {
            return Ok(());
        }
        match self.keeper.keep(&held[self.kept..]) {
            Ok(()) => {
                self.kept = count;
                self.keeper.what_it_has_survives();
                Ok(())
            }
            Err(KeepFault::NoMemory) => Err(LedgerFault::NoMemory),
            Err(_) => {
                self.is_over = true;
                Err(LedgerFault::NotKept)
            }
        }
    }
}
