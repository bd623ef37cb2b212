//! From an item that waits down to the cause.

ghost use Rattle.std.specs.Prelude.{◌≡◌, ◌++◌, ◌∷◌, [], Contains, IfOk, MatchOption};
ghost use Rattle.std.specs.List.Sorted.{IsStrictlySortedBy};
ghost use Rattle.state_core.specs.Items.{item_cmp};
ghost use Rattle.ready_core.specs.Verdicts.{AreVerdicts, items_out};
ghost use Rattle.page_text.specs.Rows.{all_rows};
ghost use Rattle.page_text.specs.Walk.{IsEndOfChain, IsListedVerdict, IsWalk};
ghost use Rattle.page_text.specs.declared.rows.Row.TheVariants.{Waits};

use gate_rules::Gate;
use lattice_core::NoMemory;
use ready_core::{Left, Verdicts, place_out};
use state_core::{Item, State};
use std::alloc::Global;
use why_text::{Chain, chain_of};

/// The items that wait for each other, from this one on: each waits for the change of the next one, and the last one,
/// which is the cause, for none. It costs O(k log n) for k of n items.
pub fn walk_from(
    alloc: Global,
    gate: &Gate,
    state: &State,
    verdicts: &Verdicts,
    first: Left,
) -> Result<Vec<Left>, NoMemory>
    requires judged { AreVerdicts gate.now state.now verdicts.now }
    requires there { Contains (all_rows verdicts.now) (Waits first) }
    ensures { IfOk result (λ steps. IsWalk state.now verdicts.now first.item steps.items) }
{
    let chain = chain_of(alloc, gate, state, verdicts, first.item)?;
    let steps = steps_of(chain)?;
    Ok(steps)
}

/// The items of a chain, of which the cause is the last one.
fn steps_of(chain: Chain) -> Result<Vec<Left>, NoMemory>
    ensures { IfOk result (λ steps. steps.items ≡ chain.waiting.items ++ chain.cause ∷ []) }
{
    let Chain { waiting, cause } = chain;
    let mut steps = waiting;
    steps.push(cause)?;
    Ok(steps)
}

/// The item at the end of such a walk. It costs the same.
pub fn cause_of(
    alloc: Global,
    gate: &Gate,
    state: &State,
    verdicts: &Verdicts,
    first: Left,
) -> Result<Left, NoMemory>
    requires judged { AreVerdicts gate.now state.now verdicts.now }
    requires there { Contains (all_rows verdicts.now) (Waits first) }
    ensures { IfOk result (IsEndOfChain state.now verdicts.now first.item) }
{
    let chain = chain_of(alloc, gate, state, verdicts, first.item)?;
    Ok(chain.cause)
}

/// The verdict on an item, if it is left out. It costs O(log n) for n items.
pub fn left_at(out: &[Left], item: Item) -> Option<Left>
    requires { IsStrictlySortedBy item_cmp (items_out out.now) }
    ensures { MatchOption result (¬ Contains (items_out out.now) item) (IsListedVerdict out.now item) }
{
    let place = place_out(out, item)?;
    Some(out[place])
}
