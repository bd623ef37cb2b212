//! The parts of one opening of a site. Their types have the opening as a parameter, so that a window can't be given a
//! receipt of another opening.

ghost use Rattle.std.specs.Prelude.{◌≡◌, ◌<◌, ◌∷◌, ◌⊎◌, ◌↔◌, [], Err, IfErr, IfOk, IfSome, IsOk, List, MatchResult};
ghost use Rattle.std.specs.Prelude.{None, OnErr, OnOk, false, if◌then◌else◌, length, nat_lt, take, true};
ghost use Rattle.std.specs.Arc.{arc_value};
ghost use Rattle.std.specs.List.{list_all, list_any};
ghost use Rattle.std.specs.Option.{option_copied};
ghost use Rattle.ready_core.specs.Verdicts.{AreVerdicts};
ghost use Rattle.replica_core.specs.Clock.{greatest, times};
ghost use Rattle.replica_core.specs.Front.{IsFront};
ghost use Rattle.replica_core.specs.Journal.{has, has_stamp};
ghost use Rattle.replica_core.specs.JournalLaws.{IsPartOf};
ghost use Rattle.replica_core.specs.Missing.{IsMissing};
ghost use Rattle.review_ops.specs.Draft.{deed_of};
ghost use Rattle.review_ops.specs.Good.{IsFaultless};
ghost use Rattle.review_ops.specs.Operation.{Operation};
ghost use Rattle.site_ledger.specs.Keeping.{IsSameKeeping, is_over_after};
ghost use Rattle.site_shared.specs.Accounts.{GoesOn, HasStamp, BearsOwn, RefusesIntake, flushing, holding, is_foreign};
ghost use Rattle.site_shared.specs.Accounts.{next_operation, receipt_of, record_of};
ghost use Rattle.site_shared.specs.Publishes.{arrive};
ghost use Rattle.site_shared.specs.Watches.{IsSameWatch, IsShownTo, IsWatchOf, Refreshes, RefusesRefresh};
ghost use Rattle.site_shared.specs.declared.fault.WindowFault.TheVariants.{Closed};
ghost use Rattle.state_core.specs.State.{state_of};

use gate_rules::Gate;
use lattice_core::NoMemory;
use ready_core::Verdicts;
use replica_core::{Front, Missing, Replica};
use review_ops::{Draft, Op, Stamp};
use site_ledger::{Keeps, Ledger, LedgerFault, Remains};
use site_shared::{
    BrandedReceipt, DeskFault, Naming, RefreshFault, Stranger, Viewer, Watch, Window, WindowFault,
    later_journals_go_on,
};
use std::marker::{Brand, Model, PhantomData};
use std::sync::Wait;

/// A window of the opening.
#[derive(Drop)]
pub struct OwnWindow<J: Naming> {
    window: Window,
    of: PhantomData<J>,
    ghost ours: { window.book ≡ J.book },
}

impl<J: Naming> OwnWindow<J> {
    /// The window, of this opening.
    pub fn new(window: Window) -> OwnWindow<J>
        requires { window.book ≡ J.book }
    {
        OwnWindow {
            window,
            of: PhantomData,
        }
    }

    /// From now on the window sees at least the publish of the receipt, as `Window::learn` does. A receipt of another
    /// site or start isn't of this opening, and changes nothing.
    pub fn learn(&mut self, receipt: &BrandedReceipt<J>) -> Result<(), Stranger>
        ensures own { IsOk result ↔ BearsOwn self.old.window receipt.now }
        ensures later { GoesOn self.old.window self.new.window }
        ensures ok { OnOk result (IsPartOf (arrive receipt.now.published) (arrive self.new.window.seen)) }
        ensures seen { OnOk result ((self.new.window.seen ≡ self.old.window.seen)
            ⊎ (self.new.window.seen ≡ receipt.now.published)) }
        ensures err { OnErr result (self.new.window ≡ self.old.window) }
    {
        later_journals_go_on();
        self.window.learn(receipt.receipt())
    }

    /// The verdicts under a gate on what the window sees, which `refresh` brings up to date.
    pub fn watch(&mut self, gate: Gate) -> Result<OwnWatch<J>, WindowFault>
        ensures later { GoesOn self.old.window self.new.window }
        ensures ok { IfOk result (λ watch. IsWatchOf gate self.new.window watch.watch) }
        ensures closed { result ≡ Err Closed → self.new.window ≡ self.old.window }
    {
        let watch = self.window.watch(gate)?;
        Ok(OwnWatch {
            watch,
            of: PhantomData,
        })
    }

    /// Brings a watch up to date with what the window sees.
    pub fn refresh(&mut self, watch: &mut OwnWatch<J>) -> Result<(), RefreshFault>
        ensures later { GoesOn self.old.window self.new.window }
        ensures same { IsSameWatch watch.old.watch watch.new.watch }
        ensures refreshed { MatchResult result
            (λ _. Refreshes self.old.window watch.old.watch self.new.window watch.new.watch)
            (λ fault. RefusesRefresh self.old.window watch.old.watch fault self.new.window watch.new.watch) }
    {
        self.window.refresh(&mut watch.watch)
    }

    /// Brings a watch up to date with what the window sees, and shows that, with the verdicts on it, to a viewer within
    /// the same look.
    pub fn show<V: Viewer>(
        &mut self,
        watch: &mut OwnWatch<J>,
        viewer: &mut V,
    ) -> Result<(), RefreshFault>
        requires { watch.old.watch.gate ≡ V.judged_by viewer.old }
        ensures later { GoesOn self.old.window self.new.window }
        ensures same { IsSameWatch watch.old.watch watch.new.watch }
        ensures refreshed { MatchResult result
            (λ _. Refreshes self.old.window watch.old.watch self.new.window watch.new.watch)
            (λ fault. RefusesRefresh self.old.window watch.old.watch fault self.new.window watch.new.watch) }
        ensures shown { OnOk result
            (IsShownTo (V.views viewer.old) (arrive self.new.window.seen) watch.new.watch viewer.new) }
        ensures unseen { OnErr result (viewer.new ≡ viewer.old) }
    {
        self.window.show(&mut watch.watch, viewer)
    }

    /// How far the record goes without a gap.
    pub fn front(&mut self) -> Result<Front, WindowFault>
        ensures later { GoesOn self.old.window self.new.window }
        ensures ok { IfOk result (IsFront (arrive self.new.window.seen)) }
        ensures closed { result ≡ Err Closed → self.new.window ≡ self.old.window }
    {
        self.window.front()
    }

    /// The first operations that a front lacks.
    pub fn missing(&mut self, front: &Front, limit: usize) -> Result<Missing, WindowFault>
        ensures later { GoesOn self.old.window self.new.window }
        ensures ok { IfOk result
            (λ missing. (all : List Operation) × IsMissing (arrive self.new.window.seen) front.now all
            × (missing.ops.items ≡ take limit all) × (missing.more ≡ nat_lt limit (length all))) }
        ensures closed { result ≡ Err Closed → self.new.window ≡ self.old.window }
    {
        self.window.missing(front, limit)
    }

    /// Whether one of the operations has the site's number, and its start or a later one, and isn't in the record.
    pub fn has_foreign(&mut self, ops: &[Op]) -> Result<bool, WindowFault>
        ensures later { GoesOn self.old.window self.new.window }
        ensures ok { IfOk result (λ found. found
            ≡ list_any (is_foreign self.old.window.site self.old.window.start (arrive self.new.window.seen)) ops.now) }
        ensures closed { IfErr result (λ fault. (fault ≡ Closed) × (self.new.window ≡ self.old.window)) }
    {
        self.window.has_foreign(ops)
    }

    /// Whether the record has, for each of these stamps, an operation with it.
    pub fn has_stamps(&mut self, stamps: &[Stamp]) -> Result<bool, WindowFault>
        ensures later { GoesOn self.old.window self.new.window }
        ensures ok { IfOk result (λ found. found ≡ list_all (has_stamp (arrive self.new.window.seen)) stamps.now) }
        ensures closed { IfErr result (λ fault. (fault ≡ Closed) × (self.new.window ≡ self.old.window)) }
    {
        self.window.has_stamps(stamps)
    }

    /// The greatest time of the record's operations, or 0 where it has none.
    pub fn latest_time(&mut self) -> Result<u64, WindowFault>
        ensures later { GoesOn self.old.window self.new.window }
        ensures ok { IfOk result (λ latest. latest ≡ greatest (times (arrive self.new.window.seen))) }
        ensures closed { IfErr result (λ fault. (fault ≡ Closed) × (self.new.window ≡ self.old.window)) }
    {
        self.window.latest_time()
    }

    /// A copy of the record.
    pub fn snapshot(&mut self) -> Result<Replica, WindowFault>
        ensures later { GoesOn self.old.window self.new.window }
        ensures ok { IfOk result (λ copied. copied ≡ arrive self.new.window.seen) }
        ensures closed { result ≡ Err Closed → self.new.window ≡ self.old.window }
    {
        self.window.snapshot()
    }
}

/// Verdicts that a window of the opening brings up to date.
#[derive(Drop)]
pub struct OwnWatch<J: Naming> {
    watch: Watch,
    of: PhantomData<J>,
    ghost ours: { watch.book ≡ J.book },
}

impl<J: Naming> OwnWatch<J> {
    /// The verdicts on what was seen; none where memory was refused to the last refresh.
    pub fn verdicts(&self) -> Option<&Verdicts>
        ensures shown { option_copied result ≡ self.now.watch.verdicts }
        ensures are { IfSome self.now.watch.verdicts
            (AreVerdicts self.now.watch.gate (state_of (arrive self.now.watch.seen))) }
    {
        self.watch.verdicts()
    }
}

/// What an opening of a site begins with, and what keeps its operations then. Each call of a program picks it, with
/// `Brand`.
pub trait Opening: Naming {
    ghost use Rattle.std.specs.Prelude.{List};
    ghost use Rattle.review_ops.specs.Operation.{Operation};

    /// The record that the site is opened with.
    ghost journal: { List Operation };

    /// Which operations what keeps them had then.
    ghost had: { List Operation → Type 0 };

    /// It was known then what keeps them in, as `Keeps::is_known` says.
    ghost known: { Type 0 };
}

impl Opening for Brand {
    ghost use Rattle.std.specs.Prelude.{[]};

    ghost journal = { [] };

    ghost had = { λ _. ⊥ };

    ghost known = { ⊥ };
}

/// The ledger of the opening: after whatever its keeper had at first comes just what was published since, and survives;
/// and what was known of the keeper is still known. Contracts see what a `Ledger` has.
pub struct OwnLedger<J: Opening, K: Keeps> {
    ledger: Ledger<K>,
    of: PhantomData<J>,
}

impl<J: Opening, K: Keeps> Model for OwnLedger<J, K> {
    ghost use Rattle.site_ledger.specs.Keeping.{Entries};
    ghost use Rattle.site_serve.specs.Openings.{IsOfOpening};

    ghost Value = { Entries K };

    ghost view = { λ own. own.ledger };

    ghost invariant = { λ own. IsOfOpening K.holds K.survives J.book J.journal J.had own.ledger
        × (J.known → K.is_known own.ledger.keeper) };
}

impl<J: Opening, K: Keeps> OwnLedger<J, K> {
    ghost use Rattle.site_serve.specs.Openings.{HasShown, IsOfOpening};

    /// The ledger, of this opening.
    pub fn new(ledger: Ledger<K>) -> OwnLedger<J, K>
        requires opening { IsOfOpening K.holds K.survives J.book J.journal J.had ledger }
        requires known { J.known → K.is_known ledger.keeper }
        ensures { result ≡ ledger }
    {
        OwnLedger {
            ledger,
            of: PhantomData,
        }
    }

    /// Stamps a body and holds it, without a publish, as `Ledger::hold` does.
    pub fn hold(&mut self, draft: Draft) -> Result<Stamp, DeskFault>
        ensures ok { IfOk result (λ stamp. let op = next_operation self.old.account (deed_of draft) in
            HasStamp self.old.account × IsFaultless (deed_of draft)
            × (self.new.account ≡ holding self.old.account (op ∷ [])) × (stamp ≡ op.stamp)) }
        ensures has { IfOk result (λ stamp. has_stamp (record_of self.new.account) stamp ≡ true) }
        ensures grows { IsPartOf (record_of self.old.account) (record_of self.new.account) }
        ensures err { IfErr result (λ fault. (self.new ≡ self.old)
            × RefusesIntake self.old.account (deed_of draft) fault self.old.account) }
        ensures same { IsSameKeeping self.old self.new }
    {
        self.ledger.hold(draft)
    }

    /// Holds an operation, unless it was published or is held, as `Ledger::hold_new` does.
    pub fn hold_new(&mut self, op: Op) -> Result<(), NoMemory>
        ensures ok { OnOk result (self.new.account ≡ (if has (record_of self.old.account) op
            then self.old.account else holding self.old.account (op ∷ []))) }
        ensures has { OnOk result (has (record_of self.new.account) op ≡ true) }
        ensures grows { IsPartOf (record_of self.old.account) (record_of self.new.account) }
        ensures err { OnErr result (self.new ≡ self.old) }
        ensures same { IsSameKeeping self.old self.new }
    {
        self.ledger.hold_new(op)
    }

    /// How many operations are held.
    pub fn held_count(&self) -> usize
        ensures { result ≡ length self.now.account.held }
    {
        self.ledger.held_count()
    }

    /// How many bytes keep its operations, where a journal does.
    pub fn kept_bytes(&self) -> Option<u64> {
        self.ledger.kept_bytes()
    }

    /// Keeps what is held, and then publishes it, as `Ledger::publish` does: the receipt covers all of it.
    pub fn publish<R: Wait>(&mut self, rt: &R) -> Result<BrandedReceipt<J>, LedgerFault>
        ensures ok { IfOk result (λ receipt. (self.old.is_over ≡ false) × (self.new.is_over ≡ false)
            × (self.new.account ≡ flushing self.old.account)
            × (receipt ≡ receipt_of self.new.account None)) }
        ensures shown { IfOk result
            (λ receipt. IsPartOf (record_of self.old.account) (arrive receipt.published)) }
        ensures err { IfErr result (λ fault. (self.new.account ≡ self.old.account)
            × (self.new.is_over ≡ is_over_after fault)) }
        ensures over { self.old.is_over ≡ true → self.new ≡ self.old }
    {
        match self.ledger.publish(rt) {
            Ok(receipt) => Ok(BrandedReceipt::new(receipt)),
            Err(fault) => Err(fault),
        }
    }

    /// Ends the ledger, and gives back what keeps its operations, of which all that was published survives.
    pub fn end<R: Wait>(self, rt: &R) -> Remains<K>
        ensures shown { HasShown K.survives J.had J.journal result.keeper (arc_value result.shown) }
        ensures known { J.known → K.is_known result.keeper }
    {
        let OwnLedger { ledger, of: _ } = self;
        let remains = ledger.end(rt);
        remains.keeper.what_comes_first_survives();
        remains
    }
}
