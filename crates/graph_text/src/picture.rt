//! The picture of a state under a gate.

ghost use Rattle.std.specs.Prelude.{IfOk, string_bytes};
ghost use Rattle.graph_core.specs.ItemGraph.{AreItems, IsGraphOf};
ghost use Rattle.ready_core.specs.Verdicts.{AreVerdicts};
ghost use Rattle.graph_text.specs.Drawing.{IsGraphText};

use super::near::near_of;
use super::nodes::nodes_of;
use super::text::{text_of, unknown_of};
use gate_rules::Gate;
use graph_core::Graph;
use lattice_core::NoMemory;
use ready_core::{Verdicts, own_conditions, verdicts_on};
use state_core::State;
use std::alloc::Global;

/// The text of the graph of a state's items under a gate, in the DOT language: a node for each item of a change that
/// isn't merged, green where it is ready and else red, with its refusal; a dashed node for each change that they wait
/// for and of which no patch set is known; and an edge from each item to what it waits for. Items of one cycle are in
/// one cluster. Around a change it has only what leads to that change's items and what these lead to. It costs what
/// `evaluate` costs, O(n log n) for n items with what they wait for, and O(m) for a text of m bytes.
pub fn graph_text(
    alloc: Global,
    gate: &Gate,
    state: &State,
    around: Option<u32>,
) -> Result<String, NoMemory>
    ensures { IfOk result (λ text. IsGraphText gate.now state.now around (string_bytes text)) }
{
    let graph = Graph::build(alloc, state, gate)?;
    let verdicts = verdicts_of(alloc, gate, state, &graph)?;
    let near = near_of(alloc, &graph, around)?;
    let nodes = nodes_of(alloc, state, &graph, &verdicts, &near)?;
    let unknown = unknown_of(alloc, nodes.as_slice())?;
    text_of(alloc, nodes.as_slice(), unknown.as_slice())
}

/// What `evaluate` says, by the graph of all items.
fn verdicts_of(
    alloc: Global,
    gate: &Gate,
    state: &State,
    graph: &Graph,
) -> Result<Verdicts, NoMemory>
    requires graph { IsGraphOf gate.now state.now graph.now }
    requires whole { AreItems state.now graph.now.items }
    ensures { IfOk result (AreVerdicts gate.now state.now) }
{
    let owns = own_conditions(alloc, state, gate, graph.items())?;
    let verdicts = verdicts_on(alloc, state, gate, graph, owns.as_slice())?;
    Ok(verdicts)
}
