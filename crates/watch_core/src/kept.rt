//! Own conditions, of which those of untouched changes are read from kept verdicts.

ghost use Rattle.std.specs.Prelude.{◌≡◌, ◌≤◌, ℕ, IfOk, MatchOption, OnOk, drop, filter, length, take, if◌then◌else◌};
ghost use Rattle.std.specs.Ordering.{nat_cmp};
ghost use Rattle.std.specs.BTreeSet.{contains};
ghost use Rattle.std.specs.List.Sorted.{IsStrictlySortedBy};
ghost use Rattle.state_core.specs.State.{state_of};
ghost use Rattle.state_core.specs.Items.{IsItem, item_cmp};
ghost use Rattle.gate_rules.specs.Own.{IsOwn};
ghost use Rattle.gate_rules.specs.declared.condition.Condition.{Condition};
ghost use Rattle.graph_core.specs.ItemGraph.{ArePart};
ghost use Rattle.ready_core.specs.Causes.{AreOwns};
ghost use Rattle.ready_core.specs.Verdicts.{AreVerdicts, items_out};
ghost use Rattle.watch_core.specs.Asked.{counted};
ghost use Rattle.watch_core.specs.KeptOwns.{IsOutWith, is_of_touched};
ghost use Rattle.watch_core.specs.Touched.{touches};

use super::judge::Judge;
use gate_rules::{Condition, Gate};
use lattice_core::NoMemory;
use ready_core::{Left, Refusal, Verdicts, place_out};
use replica_core::Replica;
use state_core::Item;
use std::collections::BTreeSet;

/// The condition for which an item is left out, if it is for one.
fn kept_own(out: &[Left], item: Item) -> Option<Condition>
    requires { IsStrictlySortedBy item_cmp (items_out out.now) }
    ensures { MatchOption result ((condition : Condition) → ¬ IsOutWith out.now item condition)
        (IsOutWith out.now item) }
{
    let place = place_out(out, item)?;
    match out[place].refusal {
        Refusal::Own(condition) => Some(condition),
        _ => None,
    }
}

/// The own condition of an item of a replica: of a touched change a judge says it, else it is as in the verdicts on the
/// replica's first arrivals.
fn own_of<J: Judge>(
    gate: &Gate,
    seen: usize,
    replica: &Replica,
    item: Item,
    touched: &BTreeSet<u32>,
    kept: &Verdicts,
    judge: &mut J,
) -> Option<Condition>
    requires item { IsItem (state_of replica.now) item }
    requires touched { (number : ℕ) → contains nat_cmp touched.now number ≡ touches (drop seen replica.now) number }
    requires kept { AreVerdicts gate.now (state_of (take seen replica.now)) kept.now }
    ensures own { IsOwn gate.now (state_of replica.now) item result }
    ensures asked { J.asked judge.new
        ≡ counted (J.asked judge.old) (if is_of_touched (drop seen replica.now) item then 1 else 0) }
{
    if !touched.contains(&item.change) {
        return kept_own(kept.out(), item);
    }
    judge.own(gate, replica, item)
}

/// The own conditions of some items of a replica, as `own_of` has them.
pub fn owns_of<J: Judge>(
    gate: &Gate,
    seen: usize,
    replica: &Replica,
    items: &[Item],
    touched: &BTreeSet<u32>,
    kept: &Verdicts,
    judge: &mut J,
) -> Result<Vec<Option<Condition>>, NoMemory>
    requires items { ArePart gate.now (state_of replica.now) items.now }
    requires touched { (number : ℕ) → contains nat_cmp touched.now number ≡ touches (drop seen replica.now) number }
    requires kept { AreVerdicts gate.now (state_of (take seen replica.now)) kept.now }
    ensures owns { IfOk result (λ owns. AreOwns gate.now (state_of replica.now) items.now owns.items) }
    ensures asked { OnOk result (J.asked judge.new
        ≡ counted (J.asked judge.old) (length (filter (is_of_touched (drop seen replica.now)) items.now))) }
    ensures at_most { J.asked judge.new
        ≤ counted (J.asked judge.old) (length (filter (is_of_touched (drop seen replica.now)) items.now)) }
{
    let mut owns = Vec::with_capacity(replica.allocator(), items.len())?;
    for item in items {
        owns.push(own_of(gate, seen, replica, *item, touched, kept, judge))?;
    }
    Ok(owns)
}
