//! Holds the operations of requests to the desk, and answers the requests once these are published.

ghost use Rattle.std.specs.Prelude.{◌≡◌, ◌∷◌, [], All, Err, IfErr, IfOk, IsOk, Ok, OnOk, true};
ghost use Rattle.std.specs.Arc.{arc_value};
ghost use Rattle.replica_core.specs.JournalLaws.{IsPartOf};
ghost use Rattle.review_ops.specs.Draft.{deed_of};
ghost use Rattle.site_serve.specs.Acknowledged.{HoldsAll, HoldsAsk, HoldsBody, IsHeldBy, IsTakenInto, asker_of};
ghost use Rattle.site_serve.specs.Acknowledged.{has_stamped};
ghost use Rattle.site_serve.specs.Answered.{AreAnswered};
ghost use Rattle.site_shared.specs.Accounts.{record_of};
ghost use Rattle.site_shared.specs.Publishes.{arrive};

use super::ask::{Answer, Ask, Asker, Done};
use super::opening::{Opening, OwnLedger};
use super::places::Places;
use crossbeam_channel::Sender;
use review_ops::{Draft, Op, Stamp};
use site_ledger::Keeps;
use site_shared::{BrandedReceipt, DeskFault, Naming};
use std::alloc::Global;
use std::sync::{Arc, Wait};

/// Who waits for an answer, and the stamp that was held for it, if any, or the fault.
#[derive(Clone, Copy)]
pub struct Waiter {
    pub asker: Asker,
    pub held: Result<Option<Stamp>, DeskFault>,
}

/// The receipt of a publish that threads share, or why there was none.
pub type Published<J> = Result<Arc<BrandedReceipt<J>, Global>, DeskFault>;

/// Holds the operations of a request.
pub(super) fn hold_ask<J: Opening, K: Keeps>(ledger: &mut OwnLedger<J, K>, ask: Ask) -> Waiter
    ensures asker { result.asker ≡ asker_of ask }
    ensures asked { HoldsAsk ask ledger.old.account ledger.new.account result.held }
    ensures held { IsHeldBy ledger.new.account result.held }
    ensures grows { IsPartOf (record_of ledger.old.account) (record_of ledger.new.account) }
{
    match ask {
        Ask::Intake { asker, draft } => Waiter {
            asker,
            held: hold_draft(ledger, draft),
        },
        Ask::TakeAll { asker, ops } => Waiter {
            asker,
            held: hold_all_new(ledger, ops),
        },
    }
}

/// Stamps a body and holds it.
fn hold_draft<J: Opening, K: Keeps>(
    ledger: &mut OwnLedger<J, K>,
    draft: Draft,
) -> Result<Option<Stamp>, DeskFault>
    ensures body { HoldsBody (deed_of draft) ledger.old.account ledger.new.account result }
    ensures held { IsHeldBy ledger.new.account result }
    ensures grows { IsPartOf (record_of ledger.old.account) (record_of ledger.new.account) }
{
    match ledger.hold(draft) {
        Ok(stamp) => Ok(Some(stamp)),
        Err(fault) => Err(fault),
    }
}

/// Holds those operations that were neither published nor are held.
#[tactic(auto, using(crate::proofs::Held::whole_part))]
fn hold_all_new<J: Opening, K: Keeps>(
    ledger: &mut OwnLedger<J, K>,
    ops: Vec<Op>,
) -> Result<Option<Stamp>, DeskFault>
    ensures all { HoldsAll ops.items ledger.new.account result }
    ensures held { IsHeldBy ledger.new.account result }
    ensures grows { IsPartOf (record_of ledger.old.account) (record_of ledger.new.account) }
{
    for op in ops {
        match ledger.hold_new(op) {
            Ok(()) => {}
            Err(_) => return Err(DeskFault::NoMemory(0)),
        }
    }
    Ok(None)
}

/// Answers all who wait, one after the other, once what was held for them is published or isn't: the sessions at their
/// places, and the threads that pull by their channels.
pub(super) fn reply_all<R: Wait, J: Naming>(
    rt: &R,
    alloc: Global,
    places: &mut Places<J>,
    pullers: &[Sender<Answer<J>, Global>],
    waiters: &[Waiter],
    published: &Published<J>,
)
    requires { IfOk published.now
        (λ receipt. All (λ waiter. IsTakenInto (arrive (arc_value receipt).published) waiter.held) waiters.now) }
    ensures { AreAnswered places.old.sessions.items places.new.sessions.items
        (λ session. session.number) (λ session. session.outbox) waiters.now }
{
    for waiter in waiters {
        reply_one(rt, alloc, places, pullers, *waiter, published);
    }
}

/// Answers one waiter.
fn reply_one<R: Wait, J: Naming>(
    rt: &R,
    alloc: Global,
    places: &mut Places<J>,
    pullers: &[Sender<Answer<J>, Global>],
    waiter: Waiter,
    published: &Published<J>,
)
    requires { IfOk published.now (λ receipt. IsTakenInto (arrive (arc_value receipt).published) waiter.held) }
    ensures { AreAnswered places.old.sessions.items places.new.sessions.items
        (λ session. session.number) (λ session. session.outbox) (waiter ∷ []) }
{
    let answer = answer_to(waiter.held, published);
    match waiter.asker {
        Asker::Session { place, session } => places.take_answer(alloc, place, session, answer),
        Asker::Puller(puller) => {
            if let Some(answers) = pullers.get(puller) {
                let _sent = answers.send(rt, answer);
            }
        }
    }
}

/// What is answered for what was held, once it is published or isn't: that it was refused; or what was stamped, with
/// the receipt of its publish; or, where there was no publish, that memory was refused.
fn answer_to<J: Naming>(
    held: Result<Option<Stamp>, DeskFault>,
    published: &Published<J>,
) -> Answer<J>
    requires { IfOk published.now (λ receipt. IsTakenInto (arrive (arc_value receipt).published) held) }
    ensures refused { IfErr held (λ fault. result ≡ Err fault) }
    ensures memory { OnOk held (IfErr result (λ fault. fault ≡ DeskFault.NoMemory 0)) }
    ensures stamp { IfOk result (λ done. held ≡ Ok done.stamp) }
    ensures published { OnOk result (IsOk published.now) }
    ensures receipt { IfOk result (λ done. IfOk published.now (λ receipt. arc_value done.receipt ≡ arc_value receipt)) }
{
    match held {
        Ok(stamp) => done(published, stamp),
        Err(fault) => Err(fault),
    }
}

/// What is answered for what was stamped, once it is published or isn't.
fn done<J: Naming>(published: &Published<J>, stamp: Option<Stamp>) -> Answer<J>
    requires { IfOk published.now (λ receipt. has_stamped (arrive (arc_value receipt).published) stamp ≡ true) }
    ensures memory { IfErr result (λ fault. fault ≡ DeskFault.NoMemory 0) }
    ensures stamp { IfOk result (λ done. done.stamp ≡ stamp) }
    ensures published { OnOk result (IsOk published.now) }
    ensures receipt { IfOk result (λ done. IfOk published.now (λ receipt. arc_value done.receipt ≡ arc_value receipt)) }
{
    match published {
        Ok(receipt) => match Arc::try_clone(receipt) {
            Ok(receipt) => Ok(Done { receipt, stamp }),
            Err(_) => Err(DeskFault::NoMemory(0)),
        },
        Err(_) => Err(DeskFault::NoMemory(0)),
    }
}

/// A receipt that threads share. Where memory is refused for that, a publish that was made is answered as one that
/// wasn't.
pub(super) fn shared<J: Naming>(alloc: Global, receipt: BrandedReceipt<J>) -> Published<J>
    ensures { IfOk result (λ shared. arc_value shared ≡ receipt) }
{
    match Arc::new(alloc, receipt) {
        Ok(receipt) => Ok(receipt),
        Err(_) => Err(DeskFault::NoMemory(0)),
    }
}
