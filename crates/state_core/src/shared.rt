//! The state of a change, shared by the copies of a record (copy on write).

ghost use Rattle.std.specs.Prelude.{◌≡◌, IfOk, OnOk, OnErr};
ghost use Rattle.lattice_core.specs.Join.{IsBetween};
ghost use Rattle.change_core.specs.Change.{change_joined, effect_of};

use change_core::ChangeState;
use lattice_core::{Join, NoMemory};
use review_ops::Op;
use std::alloc::{Allocator, Global};
use std::marker::Model;
use std::sync::Arc;

/// The state of a change, which its copies share until one of them changes: then that one gets a state of its own.
/// Contracts see the state alone.
#[derive(Drop)]
pub struct SharedChange<A: Allocator + Copy = Global> {
    change: Arc<ChangeState<A>, A>,
    alloc: A,
}

impl<A: Allocator + Copy> Model for SharedChange<A> {
    ghost use Rattle.std.specs.Arc.{arc_value};
    ghost use Rattle.change_core.specs.Change.{Change};
    ghost use Rattle.change_core.specs.Codes.{change_code};

    ghost Value = { Change };

    ghost coded = { change_code };

    ghost view = { λ s. arc_value s.change };
}

impl<A: Allocator + Copy> SharedChange<A> {
    /// A state that nobody shares yet.
    pub(super) fn new(alloc: A, change: ChangeState<A>) -> Result<SharedChange<A>, NoMemory>
        ensures { IfOk result (λ shared. shared ≡ change) }
    {
        match Arc::new(alloc, change) {
            Ok(change) => Ok(SharedChange { change, alloc }),
            Err(_) => Err(NoMemory),
        }
    }

    /// The state.
    pub fn get(&self) -> &ChangeState<A>
        ensures { result.now ≡ self.now }
    {
        &*self.change
    }

    /// Joins the effect of an operation, as `ChangeState::take` does. If the state is shared it is copied first.
    pub(super) fn take(&mut self, op: &Op<A>) -> Result<(), NoMemory>
        ensures ok { OnOk result (self.new ≡ change_joined self.old (effect_of op.now)) }
        ensures err { OnErr result (self.new ≡ self.old) }
    {
        self.unshare()?;
        let Some(change) = Arc::get_mut(&mut self.change) else {
            return Err(NoMemory);
        };
        change.take(op)
    }

    /// Joins the effect of an operation, as `ChangeState::consume` does. If the state is shared it is copied first.
    pub(super) fn consume(&mut self, op: Op<A>) -> Result<(), NoMemory>
        ensures ok { OnOk result (self.new ≡ change_joined self.old (effect_of op)) }
        ensures err { OnErr result (self.new ≡ self.old) }
    {
        self.unshare()?;
        let Some(change) = Arc::get_mut(&mut self.change) else {
            return Err(NoMemory);
        };
        change.consume(op)
    }

    /// Joins another state. If memory is refused the state is between the old one and the join. If the state is shared
    /// it is copied first.
    fn join_change(&mut self, other: ChangeState<A>) -> Result<(), NoMemory>
        ensures ok { OnOk result (self.new ≡ change_joined self.old other) }
        ensures err { OnErr result (IsBetween change_joined self.old self.new (change_joined self.old other)) }
    {
        if self.unshare().is_err() {
            return Err(NoMemory);
        }
        let Some(change) = Arc::get_mut(&mut self.change) else {
            return Err(NoMemory);
        };
        change.join(other)
    }

    /// Copies the state, if it is shared.
    fn unshare(&mut self) -> Result<(), NoMemory>
        ensures { self.new ≡ self.old }
    {
        if Arc::strong_count(&self.change) > 1 {
            *self = SharedChange::new(self.alloc, self.change.copy()?)?;
        }
        Ok(())
    }

    /// The state itself, or a copy if it is shared.
    fn into_change(self) -> Result<ChangeState<A>, NoMemory>
        ensures { IfOk result (λ change. change ≡ self) }
    {
        let SharedChange { change, alloc: _ } = self;
        match Arc::try_unwrap(change) {
            Ok(change) => Ok(change),
            Err(shared) => shared.copy(),
        }
    }
}

/// The join of the two states. A copy shares the state, takes no memory, and costs O(1).
impl<A: Allocator + Copy> Join for SharedChange<A> {
    ghost use Rattle.change_core.specs.Change.{Change, change_joined, changes_join};

    ghost Shape = { Change };

    ghost shape = { λ s. s };

    ghost joined = { change_joined };

    ghost laws = { changes_join };

    fn join(&mut self, other: SharedChange<A>) -> Result<(), NoMemory> {
        match other.into_change() {
            Ok(change) => self.join_change(change),
            Err(refused) => Err(refused),
        }
    }

    fn covers(&self, other: &SharedChange<A>) -> bool {
        self.get().covers(other.get())
    }

    fn same(&self, other: &SharedChange<A>) -> bool {
        self.get().same(other.get())
    }

    fn copy(&self) -> Result<SharedChange<A>, NoMemory> {
        match Arc::try_clone(&self.change) {
            Ok(change) => Ok(SharedChange {
                change,
                alloc: self.alloc,
            }),
            Err(_) => Err(NoMemory),
        }
    }
}
