//! The state of all changes.

ghost use Rattle.std.specs.Prelude.{◌≡◌, ◌↔◌, IsTrue, OnOk, OnErr};
ghost use Rattle.std.specs.Option.{option_copied};
ghost use Rattle.std.specs.FinMap.{empty, get};
ghost use Rattle.state_core.specs.State.{state_shown, with_effect};
ghost use Rattle.state_core.specs.Known.{IsKnown, IsMerged, merged_in};

use super::shared::SharedChange;
use change_core::{ChangeState, Status};
use lattice_core::{Join, JoinMap, NoMemory};
use review_ops::Op;
use std::alloc::{Allocator, Global};
use std::marker::Model;

/// The state of a review record: for each change that has an operation, the join of the effects of its operations, in
/// whatever order they came. Contracts see a finite map from change numbers to states.
#[derive(Drop)]
pub struct State<A: Allocator + Copy = Global> {
    changes: JoinMap<u32, SharedChange<A>, A>,
    alloc: A,
}

impl<A: Allocator + Copy> Model for State<A> {
    ghost use Rattle.state_core.specs.State.{State as Changes, state_code, state_shown};

    ghost Value = { Changes };

    ghost coded = { state_code };

    ghost view = { λ s. state_shown s.changes };
}

impl<A: Allocator + Copy> State<A> {
    /// The state of the empty journal.
    pub fn new(alloc: A) -> State<A>
        ensures { result ≡ empty }
    {
        State {
            changes: JoinMap::new(alloc),
            alloc,
        }
    }

    /// Joins the effect of an operation into the state of its change, in place. Where memory is refused nothing
    /// changes. It costs O(log n) for n changes, and what the change's `take` costs.
    pub fn take(&mut self, op: &Op<A>) -> Result<(), NoMemory>
        ensures ok { OnOk result (self.new ≡ with_effect self.old op.now) }
        ensures err { OnErr result (self.new ≡ self.old) }
    {
        join_effect(&mut self.changes, self.alloc, op)
    }

    /// Joins the effect of an operation into the state of its change, as `take` does, but moves the operation's texts
    /// instead of copying them. If memory is refused the state is unchanged, and the operation is dropped. It costs
    /// what `take` costs, without the copies of texts.
    pub fn consume(&mut self, op: Op<A>) -> Result<(), NoMemory>
        ensures ok { OnOk result (self.new ≡ with_effect self.old op) }
        ensures err { OnErr result (self.new ≡ self.old) }
    {
        consume_effect(&mut self.changes, self.alloc, op)
    }

    /// The state of a change, if it has an operation. It costs O(log n) for n changes, as `is_known` and `is_merged`
    /// do.
    pub fn change(&self, number: u32) -> Option<&ChangeState<A>>
        ensures { option_copied result ≡ get self.now number }
    {
        match self.changes.get(&number) {
            Some(shared) => Some(shared.get()),
            None => None,
        }
    }

    /// The state of each change that has an operation, by change number.
    pub fn changes(&self) -> &JoinMap<u32, SharedChange<A>, A>
        ensures { state_shown result.now ≡ self.now }
    {
        &self.changes
    }

    /// Whether some patch set of a change is known.
    pub fn is_known(&self, number: u32) -> bool
        ensures { IsTrue result ↔ IsKnown self.now number }
    {
        match self.change(number) {
            Some(change) => change.current().is_some(),
            None => false,
        }
    }

    /// Whether a change is merged, whether or not one of its patch sets is known.
    pub fn is_merged(&self, number: u32) -> bool
        ensures meaning { IsTrue result ↔ IsMerged self.now number }
        ensures test { result ≡ merged_in (get self.now number) }
    {
        self.has_merged(number)
    }

    /// Whether the state has the change as merged.
    fn has_merged(&self, number: u32) -> bool
        ensures { result ≡ merged_in (get self.now number) }
    {
        match self.change(number) {
            Some(change) => matches!(change.status(), Status::Merged),
            None => false,
        }
    }

    /// The allocator that the state takes memory from.
    pub fn allocator(&self) -> A {
        self.alloc
    }
}

/// The join of two states, change by change. If memory is refused the state is between the old one and the join. A copy
/// shares the states of changes, so it costs O(n) for n changes, whatever their size.
impl<A: Allocator + Copy> Join for State<A> {
    ghost use Rattle.lattice_core.specs.Keep.{numbers_exact};
    ghost use Rattle.lattice_core.specs.JoinMap.{maps_join};
    ghost use Rattle.change_core.specs.Change.{changes_join};
    ghost use Rattle.state_core.specs.State.{State as Changes, states_joined};

    ghost Shape = { Changes };

    ghost shape = { λ s. s };

    ghost joined = { states_joined };

    ghost laws = { maps_join numbers_exact changes_join };

    fn join(&mut self, other: State<A>) -> Result<(), NoMemory> {
        let State { changes, alloc: _ } = other;
        self.changes.join(changes)
    }

    fn covers(&self, other: &State<A>) -> bool {
        self.changes.covers(&other.changes)
    }

    fn same(&self, other: &State<A>) -> bool {
        self.changes.same(&other.changes)
    }

    fn copy(&self) -> Result<State<A>, NoMemory> {
        let changes = self.changes.copy()?;
        Ok(State {
            changes,
            alloc: self.alloc,
        })
    }
}

/// Joins the effect of an operation into the state of its change.
fn join_effect<A: Allocator + Copy>(
    changes: &mut JoinMap<u32, SharedChange<A>, A>,
    alloc: A,
    op: &Op<A>,
) -> Result<(), NoMemory>
    ensures ok { OnOk result (state_shown changes.new ≡ with_effect (state_shown changes.old) op.now) }
    ensures err { OnErr result (state_shown changes.new ≡ state_shown changes.old) }
{
    let number = op.body().change();
    if let Some(change) = changes.get_mut(&number) {
        return change.take(op);
    }
    let mut change = ChangeState::new(alloc);
    change.take(op)?;
    changes.put(number, SharedChange::new(alloc, change)?)
}

/// Joins the effect of an operation into the state of its change, with the operation's texts.
fn consume_effect<A: Allocator + Copy>(
    changes: &mut JoinMap<u32, SharedChange<A>, A>,
    alloc: A,
    op: Op<A>,
) -> Result<(), NoMemory>
    ensures ok { OnOk result (state_shown changes.new ≡ with_effect (state_shown changes.old) op) }
    ensures err { OnErr result (state_shown changes.new ≡ state_shown changes.old) }
{
    let number = op.body().change();
    if let Some(change) = changes.get_mut(&number) {
        return change.consume(op);
    }
    let mut change = ChangeState::new(alloc);
    change.consume(op)?;
    changes.put(number, SharedChange::new(alloc, change)?)
}
