//! The desk: the single writer of a running site.

ghost use Rattle.std.specs.Prelude.{◌≡◌, ◌<◌, [], ◌∷◌, ◌++◌, IfErr, IfOk, None, OnErr, OnOk, Some, if◌then◌else◌};
ghost use Rattle.std.specs.Prelude.{length};
ghost use Rattle.std.specs.Arc.{arc_value};
ghost use Rattle.replica_core.specs.Journal.{arrived, has};
ghost use Rattle.review_ops.specs.Draft.{deed_of};
ghost use Rattle.review_ops.specs.Good.{IsFaultless};

use crate::fault::DeskFault;
use crate::law::Publishes;
use crate::receipt::Receipt;
use crate::showing::Show;
use crate::shown::Shown;
use crate::sight::{Head, Sight};
use crate::spares::{Spares, with_copies};
use crate::stage::shown_by;
use core::mem::replace_with;
use lattice_core::NoMemory;
use replica_core::Replica;
use review_ops::{Body, Draft, Op, Stamp};
use std::marker::Model;
use std::mem;
use std::sync::{Arc, Wait};

/// The desk of a running site: it stamps and takes in operations, and publishes them to the windows. If memory is
/// refused for a publish, it holds the operations, and publishes them first with the next publish. It is used up by
/// `end`. Contracts see its account: what was published, the opening's journal first, and what is held.
pub struct Desk {
    show: Show,
    head: Head,
    latest: Shown,
    spares: Spares,
    /// What the next publish shows, once it was made: what is shown, with what is held.
    next: Option<Replica>,
    held: Vec<Op>,
    site: u16,
    start: u32,
}

impl Model for Desk {
    ghost use Rattle.std.specs.Prelude.{drop};
    ghost use Rattle.site_shared.specs.Accounts.{Account};
    ghost use Rattle.site_shared.specs.Desks.{IsDesk};

    ghost Value = { Account };

    ghost view = { λ d. record { book = d.latest.sight.seen.book; published = d.latest.sight.seen.log; held = d.held.items; site = d.site; start = d.start } };

    ghost invariant = { λ d. IsDesk d.latest.sight.seen d.head d.show.desk.shown.value.sight.seen (drop d.show.behind d.show.log.items) d.spares d.next d.held.items };
}

impl Desk {
    ghost use Rattle.std.specs.Prelude.{drop};
    ghost use Rattle.site_shared.specs.Accounts.{HasStamp, IsSameOpening, RefusesAll, RefusesIntake, flushing, holding};
    ghost use Rattle.site_shared.specs.Accounts.{next_operation, receipt_of, record_of};
    ghost use Rattle.site_shared.specs.Law.{head_of};
    ghost use Rattle.site_shared.specs.Publishes.{arrive};
    ghost use Rattle.site_shared.specs.Showing.{Goes};
    ghost use Rattle.site_shared.specs.Spares.{AreSpares};

    /// The desk of a site that was just opened.
    pub(crate) fn new(
        show: Show,
        head: Head,
        latest: Shown,
        spares: Spares,
        origin: (u16, u32),
    ) -> Desk
        requires head { head ≡ head_of latest.sight.seen.book }
        requires shown { show.desk.shown.value.sight.seen ≡ latest.sight.seen }
        requires settled { drop show.behind show.log.items ≡ [] }
        requires opened { 0 < length latest.sight.seen.log }
        requires spares { AreSpares (arrive latest.sight.seen.log) spares }
        ensures { result ≡ record { book = latest.sight.seen.book; published = latest.sight.seen.log; held = []; site = origin.0; start = origin.1 } }
    {
        let alloc = latest.replica.allocator();
        Desk {
            show,
            head,
            latest,
            spares,
            next: None,
            held: Vec::new(alloc),
            site: origin.0,
            start: origin.1,
        }
    }

    /// Stamps a body and publishes it, after all that is held. The receipt has the stamp, whose time is above that of
    /// all that was published or held. Memory may be refused before the body is looked at; no operation of the call is
    /// held then. Waits for windows that look at what was shown two publishes ago. It costs O(m log n) for m operations
    /// that came since then, of n in the journal.
    pub fn intake<R: Wait>(&mut self, rt: &R, draft: Draft) -> Result<Receipt, DeskFault>
        ensures ok { IfOk result (λ receipt. let op = next_operation self.old (deed_of draft) in HasStamp self.old
            × IsFaultless (deed_of draft)
            × (self.new ≡ flushing (holding self.old (op ∷ []))) × (receipt ≡ receipt_of self.new (Some op.stamp))) }
        ensures err { IfErr result (λ fault. RefusesIntake self.old (deed_of draft) fault self.new) }
        ensures opening { IsSameOpening self.old self.new }
    {
        let stamp = self.hold(draft)?;
        match self.publish(rt, Some(stamp)) {
            Ok(receipt) => Ok(receipt),
            Err(_) => Err(DeskFault::NoMemory(1)),
        }
    }

    /// Publishes operations, whether they are new or not, after all that is held. Waits and costs as `intake`.
    pub fn take_all<R: Wait>(&mut self, rt: &R, ops: Vec<Op>) -> Result<Receipt, DeskFault>
        ensures ok { IfOk result
            (λ receipt. (self.new ≡ flushing (holding self.old ops.items)) × (receipt ≡ receipt_of self.new None)) }
        ensures err { IfErr result (λ fault. RefusesAll self.old ops.items fault self.new) }
        ensures opening { IsSameOpening self.old self.new }
    {
        let count = ops.len();
        self.hold_all(ops)?;
        match self.publish(rt, None) {
            Ok(receipt) => Ok(receipt),
            Err(_) => Err(DeskFault::NoMemory(count)),
        }
    }

    /// Publishes what is held. Waits and costs as `intake`.
    pub fn flush<R: Wait>(&mut self, rt: &R) -> Result<Receipt, DeskFault>
        ensures ok { IfOk result (λ receipt. (self.new ≡ flushing self.old) × (receipt ≡ receipt_of self.new None)) }
        ensures err { IfErr result (λ fault. RefusesAll self.old [] fault self.new) }
        ensures opening { IsSameOpening self.old self.new }
    {
        match self.publish(rt, None) {
            Ok(receipt) => Ok(receipt),
            Err(_) => Err(DeskFault::NoMemory(0)),
        }
    }

    /// Stamps a body and holds it, without a publish, and answers the stamp. Waits for nobody.
    pub fn hold(&mut self, draft: Draft) -> Result<Stamp, DeskFault>
        ensures ok { IfOk result (λ stamp. let op = next_operation self.old (deed_of draft) in HasStamp self.old
            × IsFaultless (deed_of draft)
            × (self.new ≡ holding self.old (op ∷ [])) × (stamp ≡ op.stamp)) }
        ensures err { IfErr result
            (λ fault. (self.new ≡ self.old) × RefusesIntake self.old (deed_of draft) fault self.old) }
        ensures opening { IsSameOpening self.old self.new }
    {
        let op = self.stamped(draft)?;
        let stamp = op.stamp();
        match self.hold_one(op) {
            Ok(()) => Ok(stamp),
            Err(_) => Err(DeskFault::NoMemory(0)),
        }
    }

    /// Holds operations, whether they are new or not, without a publish. Waits for nobody.
    pub fn hold_all(&mut self, ops: Vec<Op>) -> Result<(), DeskFault>
        ensures ok { OnOk result (self.new ≡ holding self.old ops.items) }
        ensures err { IfErr result (λ fault. RefusesAll self.old ops.items fault self.new) }
        ensures opening { IsSameOpening self.old self.new }
    {
        let mut held = 0;
        for op in ops {
            match self.hold_one(op) {
                Ok(()) => held += 1,
                Err(_) => return Err(DeskFault::NoMemory(held)),
            }
        }
        Ok(())
    }

    /// Holds an operation, unless it was published or is held, without a publish. Waits for nobody.
    pub fn hold_new(&mut self, op: Op) -> Result<(), NoMemory>
        ensures ok { OnOk result
            (self.new ≡ (if has (record_of self.old) op then self.old else holding self.old (op ∷ []))) }
        ensures err { OnErr result (self.new ≡ self.old) }
        ensures opening { IsSameOpening self.old self.new }
    {
        let next = self.take_next()?;
        let is_known = next.has(&op);
        self.next = Some(next);
        if is_known {
            return Ok(());
        }
        self.hold_one(op)
    }

    /// The held operations, in their order.
    pub fn held(&self) -> &[Op]
        ensures { result.now ≡ self.now.held }
    {
        &self.held
    }

    /// Ends the site, and answers the record that was shown last: a window that is asked from now on answers that, or
    /// `Closed`. What is held is dropped. Waits for windows that look.
    pub fn end<R: Wait>(self, rt: &R) -> Arc<Replica>
        ensures { arc_value result ≡ arrive self.published }
    {
        let Desk {
            show,
            head: _,
            latest,
            spares: _,
            next: _,
            held: _,
            site: _,
            start: _,
        } = self;
        drop(show.take(rt));
        let Shown { replica, sight: _ } = latest;
        replica
    }

    /// The operation of a body, under the next stamp.
    fn stamped(&mut self, draft: Draft) -> Result<Op, DeskFault>
        ensures same { self.new ≡ self.old }
        ensures ok { IfOk result
            (λ op. (op ≡ next_operation self.old (deed_of draft)) × HasStamp self.old × IsFaultless (deed_of draft)) }
        ensures err { IfErr result (λ fault. RefusesIntake self.old (deed_of draft) fault self.old) }
    {
        let Ok(next) = self.take_next() else {
            return Err(DeskFault::NoMemory(0));
        };
        let stamp = next.next_stamp(self.site, self.start);
        self.next = Some(next);
        let Ok(stamp) = stamp else {
            return Err(DeskFault::ClockSpent);
        };
        match Body::checked(draft) {
            Ok(body) => Ok(Op::new(stamp, body)),
            Err(cause) => Err(DeskFault::BadBody(cause)),
        }
    }

    /// Holds an operation.
    fn hold_one(&mut self, op: Op) -> Result<(), NoMemory>
        ensures ok { OnOk result (self.new ≡ holding self.old (op ∷ [])) }
        ensures err { OnErr result (self.new ≡ self.old) }
    {
        let mut next = self.take_next()?;
        let added = add_to_both(&mut next, &mut self.held, op);
        self.next = Some(next);
        added
    }

    /// The replica of all that was published or is held.
    fn take_next(&mut self) -> Result<Replica, NoMemory>
        ensures same { self.new ≡ self.old }
        ensures ok { IfOk result (λ next. next ≡ record_of self.old) }
    {
        match self.next.take() {
            Some(next) => Ok(next),
            None => {
                let shown = self.spares.brought_up(&self.latest.replica)?;
                with_copies(shown, self.held.as_slice())
            }
        }
    }

    /// Publishes what is held. All that may be refused comes before the list of publishes grows.
    fn publish<R: Wait>(&mut self, rt: &R, stamp: Option<Stamp>) -> Result<Receipt, NoMemory>
        ensures ok { IfOk result (λ receipt. (self.new ≡ flushing self.old) × (receipt ≡ receipt_of self.new stamp)) }
        ensures err { OnErr result (self.new ≡ self.old) }
    {
        let next = self.take_next()?;
        let replica = match Arc::new(next.allocator(), next) {
            Ok(replica) => replica,
            Err(refused) => {
                self.next = Some(refused.value);
                return Err(NoMemory);
            }
        };
        let twin = Arc::try_clone(&replica)?;
        let latest = &self.latest;
        let Some(sight) = latest
            .sight
            .with::<Vec<Op>, Publishes>(&self.head, &self.held)
        else {
            return Err(NoMemory);
        };
        self.turn_to(rt, replica, twin, sight);
        Ok(Receipt::new(self.latest.sight.again(), self.site, self.start, stamp))
    }

    /// Shows the replica of a sight that has one publish more, of what was held.
    fn turn_to<R: Wait>(&mut self, rt: &R, replica: Arc<Replica>, twin: Arc<Replica>, sight: Sight)
        requires replicas { (arc_value replica ≡ record_of self.old) × (arc_value twin ≡ record_of self.old) }
        requires sight { (sight.seen.log ≡ self.old.published ++ self.old.held ∷ [])
            × (sight.seen.book ≡ self.old.book) }
        ensures { self.new ≡ flushing self.old }
    {
        let next = Shown {
            replica: twin,
            sight: sight.again(),
        };
        replace_with(
            &mut self.show,
            next,
            |show: Show, next: Shown| -> (Show, ())
                requires settled { drop show.behind show.log.items ≡ [] }
                requires goes_on { Goes show.desk.shown.value.sight.seen next.sight.seen }
                ensures { (drop result.0.behind result.0.log.items ≡ [])
                    × (result.0.desk.shown.value.sight.seen ≡ next.sight.seen) }
            { (shown_by(rt, show, next), ()) },
        );
        let Shown {
            replica: before,
            sight: _,
        } = mem::replace(&mut self.latest, Shown { replica, sight });
        self.spares.put_aside(before);
        self.held.clear();
    }
}

/// Adds an operation to a replica and to what is held. Where memory is refused nothing changes.
fn add_to_both(next: &mut Replica, held: &mut Vec<Op>, op: Op) -> Result<(), NoMemory>
    ensures ok { OnOk result ((next.new ≡ arrived next.old op) × (held.new.items ≡ held.old.items ++ op ∷ [])) }
    ensures err { OnErr result ((next.new ≡ next.old) × (held.new.items ≡ held.old.items)) }
{
    held.reserve(1)?;
    let _taken = next.take(op.copy()?)?;
    held.push_reserved(op);
    Ok(())
}
