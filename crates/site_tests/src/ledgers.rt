//! Ledgers over keepers that fail.

ghost use Rattle.review_ops.specs.Operation.{Operation};

use super::asserts::assert_found;
use super::running::patch_set;
use replica_core::Replica;
use review_ops::Op;
use site_journal::KeepFault;
use site_ledger::{Keeps, Ledger, LedgerFault};
use site_shared::{Window, open_site};
use std::alloc::{AllocError, Global};
use std::sync::Wait;
use std::test::Fail;

/// Keeps operations but for the faults that are left, the last one first.
#[derive(Drop)]
struct Failing {
    faults: Vec<KeepFault>,
}

impl Keeps for Failing {
    ghost holds = { λ _ _. Unit {0} };

    ghost survives = { λ _ _. Unit {0} };

    ghost is_known = { λ _. Unit {0} };

    fn what_it_has_survives(&self) {}

    fn what_comes_first_survives(&self) {}

    fn keep(&mut self, _ops: &[Op]) -> Result<(), KeepFault> {
        match self.faults.pop() {
            Some(fault) => Err(fault),
            None => Ok(()),
        }
    }

    fn bytes(&self) -> Option<u64> {
        None
    }
}

/// What a publish of one held operation is answered, and that of the next try; and how many operations a window sees
/// then.
type Published = (Option<LedgerFault>, Option<LedgerFault>, usize);

/// A keeper that fails once, with this fault.
fn failing_once(alloc: Global, fault: KeepFault) -> Result<Failing, AllocError> {
    let mut faults = Vec::new(alloc);
    faults.push(fault)?;
    Ok(Failing { faults })
}

/// Holds an operation and tries to publish it twice.
fn publish_twice<R: Wait>(
    rt: &R,
    alloc: Global,
    ledger: &mut Ledger<Failing>,
) -> Result<(Option<LedgerFault>, Option<LedgerFault>), Fail> {
    let _stamp = ledger.hold(patch_set(alloc, 101)?)?;
    let first = ledger.publish(rt).err();
    let second = ledger.publish(rt).err();
    Ok((first, second))
}

/// How many operations the last of these windows sees.
fn seen_by_last(mut windows: Vec<Window>) -> Option<usize> {
    let mut window = windows.pop()?;
    Some(window.snapshot().ok()?.len())
}

/// How two publishes end over a keeper that fails once.
fn published<R: Wait>(rt: &R, alloc: Global, fault: KeepFault) -> Result<Published, Fail> {
    let failing = failing_once(alloc, fault)?;
    let (desk, windows) = open_site(rt, 1, 1, 1, Replica::new(alloc))?;
    let mut ledger = Ledger::new(desk, failing);
    let ended = publish_twice(rt, alloc, &mut ledger);
    ledger.published_survives();
    let seen = seen_by_last(windows);
    ledger.end(rt);
    let (first, second) = ended?;
    Ok((first, second, seen.ok_or("a window")?))
}

#[test]
fn what_is_not_kept_is_not_published(rt: HostRuntime) -> Result<(), Fail> {
    let over = Some(LedgerFault::NotKept);
    for fault in [KeepFault::Failed, KeepFault::Spoiled, KeepFault::TooLong] {
        assert_found(&rt, published(&rt, rt.alloc(), fault)?, (over, over, 0));
    }
    Ok(())
}

#[test]
fn what_memory_was_refused_for_is_published_later(rt: HostRuntime) -> Result<(), Fail> {
    let first = Some(LedgerFault::NoMemory);
    assert_found(
        &rt,
        published(&rt, rt.alloc(), KeepFault::NoMemory)?,
        (first, None, 1),
    );
    Ok(())
}
