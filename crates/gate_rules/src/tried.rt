//! Each condition of a gate, with whether an item breaks it.

ghost use Rattle.std.specs.Prelude.{◌≡◌, ◌++◌, IfOk, OnOk, flat_map};
ghost use Rattle.state_core.specs.Items.{IsItem};
ghost use Rattle.gate_rules.specs.Own.{side_rules};
ghost use Rattle.gate_rules.specs.Tried.{AreTried, approvals_from, is_broken_by, tried_by, tried_clause, tried_of};
ghost use Rattle.gate_rules.specs.Tried.{tried_side};

use super::condition::{Clause, Condition, Side};
use super::gate::Gate;
use super::own::Standing;
use lattice_core::NoMemory;
use state_core::{Item, State};
use std::alloc::Global;

/// A condition of a gate, and whether an item breaks it.
#[derive(Clone, Copy, Debug, PartialEq, Eq)]
pub struct Tried {
    pub condition: Condition,
    pub is_broken: bool,
}

impl Gate {
    /// Each condition of the gate with whether an item breaks it, in the order of `own`, which answers the first that
    /// is broken. It costs O(v p) for v votes on the change and p patterns.
    pub fn conditions(
        &self,
        alloc: Global,
        state: &State,
        item: Item,
    ) -> Result<Vec<Tried>, NoMemory>
        requires { IsItem state.now item }
        ensures { IfOk result (λ tried. AreTried self.now state.now item tried.items) }
    {
        let change = state.change(item.change).unwrap();
        let current = change.current().unwrap();
        let tried = all_tried(alloc, self, &Standing::new(change, current, item.set))?;
        Ok(tried)
    }
}

/// Each condition of a gate: what is required, then what is rejected.
fn all_tried(alloc: Global, gate: &Gate, standing: &Standing<'_>) -> Result<Vec<Tried>, NoMemory>
    ensures { IfOk result (λ tried. tried.items ≡ tried_of gate.now standing.now) }
{
    let mut tried = Vec::new(alloc);
    add_side(&mut tried, gate, Side::Require, standing)?;
    add_side(&mut tried, gate, Side::Reject, standing)?;
    Ok(tried)
}

/// Adds the conditions of a side.
fn add_side(
    tried: &mut Vec<Tried>,
    gate: &Gate,
    side: Side,
    standing: &Standing<'_>,
) -> Result<(), NoMemory>
    ensures { OnOk result (tried.new.items ≡ tried.old.items ++ tried_side gate.now standing.now side) }
{
    let clauses = gate.clauses(side);
    let open = clauses.compare(Clause::OpenState, standing);
    let current = clauses.compare(Clause::CurrentSet, standing);
    let status = clauses.compare(Clause::StatusIn, standing);
    add_clause(tried, side, Clause::OpenState, open)?;
    add_clause(tried, side, Clause::CurrentSet, current)?;
    add_clause(tried, side, Clause::StatusIn, status)?;
    add_approvals(tried, gate, side, standing)
}

/// Adds the approvals of a side.
fn add_approvals(
    tried: &mut Vec<Tried>,
    gate: &Gate,
    side: Side,
    standing: &Standing<'_>,
) -> Result<(), NoMemory>
    ensures { OnOk result (tried.new.items ≡ tried.old.items
        ++ flat_map (tried_by gate.now standing.now side) (approvals_from 0 (side_rules gate.now side).approvals)) }
{
    let clauses = gate.clauses(side);
    for place in 0..clauses.approvals().len() {
        let clause = Clause::Approval(place + 1);
        add_clause(tried, side, clause, clauses.compare(clause, standing))?;
    }
    Ok(())
}

/// Adds a clause of a side, by whether it holds, where the side has it.
fn add_clause(
    tried: &mut Vec<Tried>,
    side: Side,
    clause: Clause,
    held: Option<bool>,
) -> Result<(), NoMemory>
    ensures { OnOk result (tried.new.items ≡ tried.old.items ++ tried_clause side clause held) }
{
    let Some(held) = held else {
        return Ok(());
    };
    let condition = Condition { side, clause };
    let is_broken = is_broken(side, held);
    tried.push(Tried {
        condition,
        is_broken,
    })?;
    Ok(())
}

/// Whether a condition of a side is broken that holds or doesn't.
fn is_broken(side: Side, held: bool) -> bool
    ensures { result ≡ is_broken_by side held }
{
    match side {
        Side::Require => !held,
        Side::Reject => held,
    }
}
