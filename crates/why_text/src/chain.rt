//! From an item that is left out down to the cause.

ghost use Rattle.std.specs.Prelude.{◌≡◌, ◌+◌, IfOk, Contains};
ghost use Rattle.std.specs.List.Sorted.{IsStrictlySortedBy};
ghost use Rattle.state_core.specs.Items.{item_cmp};
ghost use Rattle.ready_core.specs.Verdicts.{AreVerdicts, LeadsOn, items_out};
ghost use Rattle.ready_core.specs.declared.verdicts.Left.{Left as LeftOut};
ghost use Rattle.why_text.specs.Chain.{IsChain, IsChainOf, WaitsFor};

use gate_rules::Gate;
use lattice_core::NoMemory;
use ready_core::{Left, Refusal, Verdicts, dependencies_lead_to_a_cause, place_out};
use state_core::{Item, State};
use std::alloc::Global;

/// The items from one that is left out down to the cause: those that wait for the next one, and the last one.
#[derive(Drop)]
pub struct Chain {
    pub waiting: Vec<Left>,
    pub cause: Left,
}

/// The verdict on an item that is left out. In O(log n) for n items.
fn left_at(out: &[Left], item: Item) -> Left
    requires in_order { IsStrictlySortedBy item_cmp (items_out out.now) }
    requires there { Contains (items_out out.now) item }
    ensures there { Contains out.now result }
    ensures of { result.item ≡ item }
{
    out[place_out(out, item).unwrap()]
}

/// The verdict on the current item of a change that an item waits for.
fn step_after(state: &State, verdicts: &Verdicts, left: Left, change: u32) -> Left
    requires in_order { IsStrictlySortedBy item_cmp (items_out verdicts.now.out) }
    requires leads { LeadsOn state.now verdicts.now left }
    requires waits { left.refusal ≡ Refusal.Dependency change }
    ensures next { WaitsFor state.now verdicts.now left result }
    ensures rank { left.rank ≡ result.rank + 1 }
{
    let current = state.change(change).unwrap().current().unwrap();
    left_at(
        verdicts.out(),
        Item {
            change,
            set: current,
        },
    )
}

/// The items from one that is left out down to the cause, with why each is left out: the current item of the change
/// that the one before waits for, as many that wait as the item's rank says, and the one that waits for no other. The
/// verdicts are those of the state under the gate. It costs O(k log n) for k steps and n items.
pub fn chain_of(
    alloc: Global,
    gate: &Gate,
    state: &State,
    verdicts: &Verdicts,
    item: Item,
) -> Result<Chain, NoMemory>
    requires judged { AreVerdicts gate.now state.now verdicts.now }
    requires there { Contains (items_out verdicts.now.out) item }
    ensures { IfOk result (λ chain. IsChainOf state.now verdicts.now item chain.waiting.items chain.cause) }
{
    let _judged_under = gate;
    dependencies_lead_to_a_cause();
    let first = left_at(verdicts.out(), item);
    let chain = chain_from(alloc, state, verdicts, first)?;
    Ok(chain)
}

/// The items from one that is left out down to the cause: as many that wait as the rank of the first says. It costs
/// O(k log n) for k steps and n items.
fn chain_from(
    alloc: Global,
    state: &State,
    verdicts: &Verdicts,
    first: Left,
) -> Result<Chain, NoMemory>
    requires in_order { IsStrictlySortedBy item_cmp (items_out verdicts.now.out) }
    requires leads { (left : LeftOut) → Contains verdicts.now.out left → LeadsOn state.now verdicts.now left }
    requires out { Contains verdicts.now.out first }
    ensures { IfOk result (λ chain. IsChain state.now verdicts.now first chain.waiting.items chain.cause) }
{
    let mut waiting = Vec::new(alloc);
    let mut left = first;
    while let Refusal::Dependency(change) = left.refusal {
        waiting.push(left)?;
        left = step_after(state, verdicts, left, change);
    }
    Ok(Chain {
        waiting,
        cause: left,
    })
}
