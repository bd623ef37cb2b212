//! The trait of keepers: they store operations before these are published.

ghost use Rattle.std.specs.Prelude.{◌≡◌, ◌++◌, Err, List, OnErr, OnOk};
ghost use Rattle.review_ops.specs.Operation.{Operation};
ghost use Rattle.site_journal.specs.declared.fault.KeepFault.TheVariants.{NoMemory};

use review_ops::Op;
use site_journal::{Journal, KeepFault, Tape};

/// Stores the operations of a site, before they are published.
pub trait Keeps {
    /// It has exactly these operations, in this order, and keeps all of them.
    ghost holds: { Self → List Operation → Type 0 };

    /// Whatever a crash leaves of it begins with these operations, in this order.
    ghost survives: { Self → List Operation → Type 0 };

    /// It is known what it stores them in. Of a keeper of which that isn't known `survives` may hold of any operations.
    ghost is_known: { Self → Type 0 };

    /// A law: what it has survives a crash.
    fn what_it_has_survives(&self)
        ensures { (ops : List Operation) → holds self.now ops → survives self.now ops };

    /// A law: each prefix of what survives, survives.
    fn what_comes_first_survives(&self)
        ensures { (ops more : List Operation) → survives self.now (ops ++ more) → survives self.now ops };

    /// Keeps the operations, after those that it has, which stay whether the call fails or not. At `Ok` the new ones
    /// stay, too. After any fault but `NoMemory` nothing is promised of a later call.
    fn keep(&mut self, ops: &[Op]) -> Result<(), KeepFault>
        ensures ok { OnOk result
            ((before : List Operation) → holds self.old before → holds self.new (before ++ ops.now)) }
        ensures err { OnErr result ((before : List Operation) → holds self.old before → survives self.new before) }
        ensures memory { result ≡ Err NoMemory → (before : List Operation) → holds self.old before
            → holds self.new before }
        // What is known of it stays known, whether the call fails or not.
        ensures known { is_known self.old → is_known self.new };

    /// How many bytes it has, if it is a journal: for metrics; the trait promises nothing of it.
    fn bytes(&self) -> Option<u64>;
}

/// The keeper of a site without a journal, which stores nothing.
#[derive(Clone, Copy, Debug, Drop)]
pub struct NoJournal;

impl Keeps for NoJournal {
    ghost holds = { λ _ _. Unit {0} };

    ghost survives = { λ _ _. Unit {0} };

    ghost is_known = { λ _. Unit {0} };

    fn what_it_has_survives(&self) {}

    fn what_comes_first_survives(&self) {}

    fn keep(&mut self, _ops: &[Op]) -> Result<(), KeepFault> {
        Ok(())
    }

    fn bytes(&self) -> Option<u64> {
        None
    }
}

impl<T: Tape> Keeps for Journal<T> {
    ghost use Rattle.site_journal.specs.Book.{IsHolding};
    ghost use Rattle.site_ledger.specs.Keeping.{IsKnown, Survive};

    ghost holds = { IsHolding };

    ghost survives = { Survive };

    ghost is_known = { IsKnown };

    fn what_it_has_survives(&self) {}

    fn what_comes_first_survives(&self) {}

    fn keep(&mut self, ops: &[Op]) -> Result<(), KeepFault> {
        self.append(ops)
    }

    fn bytes(&self) -> Option<u64> {
        Some(self.len())
    }
}
