//! What is near the items of a change: what they lead to, and what leads to them.

ghost use Rattle.std.specs.Prelude.{◌≡◌, IfOk, length, map};
ghost use Rattle.walk_core.specs.Digraphs.{IsWithin};
ghost use Rattle.graph_text.specs.Near.{AreAhead, AreBehind, is_of};

use graph_core::Graph;
use lattice_core::NoMemory;
use state_core::Item;
use std::alloc::Global;
use walk_core::{leading, reached};

/// Of each item whether an item of the change leads to it, and whether it leads to one; without a change both hold of
/// all.
#[derive(Drop)]
pub struct Near {
    pub ahead: Vec<bool>,
    pub behind: Vec<bool>,
}

/// What is near the items of a change. It costs O(n + m) for n items and m edges.
pub fn near_of(alloc: Global, graph: &Graph, around: Option<u32>) -> Result<Near, NoMemory>
    requires { IsWithin graph.now.ends }
    ensures ahead { IfOk result (λ near. AreAhead graph.now around near.ahead.items) }
    ensures behind { IfOk result (λ near. AreBehind graph.now around near.behind.items) }
{
    let Some(change) = around else {
        return all_near(alloc, graph);
    };
    let own = items_of(alloc, graph.items(), change)?;
    let ahead = reached(alloc, graph.digraph(), own.as_slice())?;
    let behind = leading(alloc, graph.digraph(), own.as_slice())?;
    Ok(Near { ahead, behind })
}

/// All items are near.
fn all_near(alloc: Global, graph: &Graph) -> Result<Near, NoMemory>
    ensures ahead { IfOk result (λ near. AreAhead graph.now None near.ahead.items) }
    ensures behind { IfOk result (λ near. AreBehind graph.now None near.behind.items) }
{
    let count = graph.items().len();
    let ahead = vec![in alloc; true; count]?;
    let behind = vec![in alloc; true; count]?;
    Ok(Near { ahead, behind })
}

/// Which items are of a change.
fn items_of(alloc: Global, items: &[Item], change: u32) -> Result<Vec<bool>, NoMemory>
    ensures { IfOk result (λ flags. flags.items ≡ map (is_of change) items.now) }
{
    Ok(
        items
            .iter()
            .map(|item| item.change == change)
            .collect(alloc)?,
    )
}
