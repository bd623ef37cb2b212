//! Which items are ready, and why each other one isn't.

ghost use Rattle.std.specs.Prelude.{◌≡◌, ◌<◌, ◌↔◌, ℕ, IsTrue, IfOk, MatchOption, All, Contains, length, map};
ghost use Rattle.state_core.specs.State.{State as Changes};
ghost use Rattle.walk_core.specs.Digraphs.{ends_of};
ghost use Rattle.gate_rules.specs.Rules.{GateRules};
ghost use Rattle.state_core.specs.declared.item.Item.{Item};
ghost use Rattle.graph_core.specs.ItemGraph.{IsAt, IsGraphOf};
ghost use Rattle.ready_core.specs.Refusals.{IsRefused};
ghost use Rattle.ready_core.specs.ItemRanks.{to_rank};
ghost use Rattle.ready_core.specs.RankedVerdicts.{AreRankedVerdictsOn};
ghost use Rattle.ready_core.specs.Verdicts.{AreVerdicts, AreVerdictsOn};
ghost use Rattle.std.specs.List.Sorted.{IsStrictlySortedBy};
ghost use Rattle.state_core.specs.Items.{item_cmp};
ghost use Rattle.walk_core.specs.NodeRanks.{to_rank as to_node_rank};
ghost use Rattle.walk_core.specs.Ranks.{rank_cmp};
ghost use Rattle.walk_core.specs.Levels.{HasDistance};
ghost use Rattle.ready_core.specs.Causes.{AreCauses, AreJudgedBy, AreOwns, AreSearched, IsJudgement, IsNearest};
ghost use Rattle.ready_core.specs.Causes.{IsRankWithin, rank_at, safe_flags};

use super::causes::{all_causes, flags_of, own_conditions};
use super::ranked::{ItemRank, Ranked};
use super::verdicts::{Left, Refusal, Verdicts};
use gate_rules::{Condition, Gate};
use graph_core::Graph;
use lattice_core::NoMemory;
use state_core::{Item, State};
use std::alloc::Global;
use walk_core::NodeRank;

/// Which items of a state are ready under a gate, and why each other one isn't. It costs O(b + v p + n log n) time and
/// O(n) memory for b bytes of messages, v votes, p patterns and n items with what they wait for, and, for the order of
/// the ready items, what `Digraph::in_rank_order` costs.
pub fn evaluate(alloc: Global, state: &State, gate: &Gate) -> Result<Verdicts, NoMemory>
    ensures { IfOk result (AreVerdicts gate.now state.now) }
{
    let graph = Graph::build(alloc, state, gate)?;
    let owns = own_conditions(alloc, state, gate, graph.items())?;
    let verdicts = verdicts_on(alloc, state, gate, &graph, owns.as_slice())?;
    Ok(verdicts)
}

/// The verdicts on the items of a graph, which may be a part of the state's items, given their own conditions: the same
/// as those of `evaluate` on these items. It costs O(n log n) time and O(n) memory for n items with what they wait for,
/// and, for the order of the ready items, what `Digraph::in_rank_order` costs.
pub fn verdicts_on(
    alloc: Global,
    state: &State,
    gate: &Gate,
    graph: &Graph,
    owns: &[Option<Condition>],
) -> Result<Verdicts, NoMemory>
    requires graph { IsGraphOf gate.now state.now graph.now }
    requires owns { AreOwns gate.now state.now graph.now.items owns.now }
    ensures { IfOk result (AreVerdictsOn gate.now state.now graph.now.items) }
{
    let ranked = ranked_on(alloc, state, gate, graph, owns)?;
    ranked.into_verdicts(alloc)
}

/// As `verdicts_on`, with the rank by which each ready item is ordered: how many ready items of the whole state it
/// reaches, itself among them, and the first item of its cycle.
pub fn ranked_on(
    alloc: Global,
    state: &State,
    gate: &Gate,
    graph: &Graph,
    owns: &[Option<Condition>],
) -> Result<Ranked, NoMemory>
    requires graph { IsGraphOf gate.now state.now graph.now }
    requires owns { AreOwns gate.now state.now graph.now.items owns.now }
    ensures verdicts { IfOk result (AreRankedVerdictsOn gate.now state.now graph.now.items) }
    ensures rising { IfOk result (λ ranked. IsStrictlySortedBy (rank_cmp item_cmp) ranked.ranks) }
{
    let causes = all_causes(alloc, state, gate, graph, owns)?;
    let ineligible = flags_of(alloc, causes.as_slice())?;
    let ranks = graph.digraph().distances(ineligible.as_slice())?;
    judged(alloc, graph, causes.as_slice(), ranks.as_slice())
}

/// The ranked verdicts, by why each item isn't eligible and how far it is from one that isn't.
pub fn judged(
    alloc: Global,
    graph: &Graph,
    causes: &[Option<Refusal>],
    ranks: &[Option<usize>],
) -> Result<Ranked, NoMemory>
    requires { AreSearched graph.now causes.now ranks.now }
    ensures { IfOk result (λ ranked. IsJudgement graph.now causes.now ranks.now ranked.ranks ranked.out) }
{
    let verdicts = by_place(alloc, graph, causes, ranks)?;
    let safe = unranked(alloc, ranks)?;
    let places = graph.digraph().ranks(safe.as_slice())?;
    let ready = ranks_at(alloc, graph.items(), places.as_slice())?;
    Ok(verdicts.with_ranks(ready))
}

/// For each index, whether it has no rank.
fn unranked(alloc: Global, ranks: &[Option<usize>]) -> Result<Vec<bool>, NoMemory>
    ensures { IfOk result (λ flags. flags.items ≡ safe_flags ranks.now) }
{
    Ok(ranks.iter().map(|rank| rank.is_none()).collect(alloc)?)
}

/// The ranks of items, by those of their places.
fn ranks_at(alloc: Global, items: &[Item], places: &[NodeRank]) -> Result<Vec<ItemRank>, NoMemory>
    requires { All (IsRankWithin (length items.now)) places.now }
    ensures { IfOk result (λ found. map to_rank found.items ≡ map (rank_at items.now) (map to_node_rank places.now)) }
{
    let mut found = Vec::with_capacity(alloc, places.len())?;
    for place in places {
        found.push(ItemRank {
            count: place.count,
            first: items[place.first],
            node: items[place.node],
        })?;
    }
    Ok(found)
}

/// The verdicts with the ready items in number order, as the others.
fn by_place(
    alloc: Global,
    graph: &Graph,
    causes: &[Option<Refusal>],
    ranks: &[Option<usize>],
) -> Result<Verdicts, NoMemory>
    requires { AreSearched graph.now causes.now ranks.now }
    ensures { IfOk result
        (λ verdicts. AreJudgedBy graph.now causes.now (length graph.now.items) verdicts.ready verdicts.out) }
{
    let items = graph.items();
    let mut ready = Vec::new(alloc);
    let mut out = Vec::new(alloc);
    for place in 0..items.len() {
        let Some(rank) = ranks[place] else {
            ready.push(items[place])?;
            continue;
        };
        let refusal = refusal_of(graph, causes, ranks, place, rank);
        out.push(Left {
            item: items[place],
            refusal,
            rank,
        })?;
    }
    Ok(Verdicts::new(ready, out))
}

/// Why the item at a place, so far from one that isn't eligible, is left out.
fn refusal_of(
    graph: &Graph,
    causes: &[Option<Refusal>],
    ranks: &[Option<usize>],
    place: usize,
    rank: usize,
) -> Refusal
    requires searched { AreSearched graph.now causes.now ranks.now }
    requires rank { HasDistance ranks.now place rank }
    requires place { place < length graph.now.items }
    ensures { (gate : GateRules) (state : Changes) (item : Item) → IsGraphOf gate state graph.now
        → AreCauses gate state graph.now.items causes.now → IsAt graph.now.items place item
        → IsRefused gate state item result rank }
{
    if let Some(refusal) = causes[place] {
        return refusal;
    }
    let end = nearest(graph.digraph().ends(place), ranks, rank - 1).unwrap();
    Refusal::Dependency(change_at(graph.items(), end))
}

/// The change of the item at a place.
fn change_at(items: &[Item], place: usize) -> u32
    requires { place < length items.now }
    ensures { (item : Item) → IsAt items.now place item → result ≡ item.change }
{
    items[place].change
}

/// The first of some indices that has a given rank.
pub fn nearest(places: &[usize], ranks: &[Option<usize>], wanted: usize) -> Option<usize>
    requires { All (λ place. place < length ranks.now) places.now }
    ensures { MatchOption result ((place : ℕ) → Contains places.now place → ¬ HasDistance ranks.now place wanted)
        (IsNearest ranks.now places.now wanted) }
{
    for place in places {
        if has_rank(ranks, *place, wanted) {
            return Some(*place);
        }
    }
    None
}

/// Whether an index has a given rank.
fn has_rank(ranks: &[Option<usize>], place: usize, wanted: usize) -> bool
    requires { place < length ranks.now }
    ensures { IsTrue result ↔ HasDistance ranks.now place wanted }
{
    match ranks[place] {
        Some(rank) => rank == wanted,
        None => false,
    }
}
