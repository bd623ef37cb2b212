//! What is judged again of a replica once operations have arrived.

ghost use Rattle.std.specs.Prelude.{◌≡◌, ◌≤◌, ℕ, IfOk, OnOk, drop, length, take};
ghost use Rattle.state_core.specs.State.{state_of};
ghost use Rattle.ready_core.specs.Causes.{AreOwns};
ghost use Rattle.ready_core.specs.Verdicts.{AreVerdicts};
ghost use Rattle.watch_core.specs.Again.{HasWaiting, IsAgain};
ghost use Rattle.watch_core.specs.Asked.{AreTouchedItems, counted};

use super::judge::Judge;
use super::kept::owns_of;
use super::namers::Namers;
use super::reach::{Reach, reach_of};
use super::seeds::{graph_of, widened};
use super::touched::touched_changes;
use gate_rules::{Condition, Gate};
use graph_core::Graph;
use lattice_core::NoMemory;
use ready_core::Verdicts;
use replica_core::Replica;
use std::alloc::Global;
use std::collections::BTreeSet;

/// The changes with a new operation, the items that reach them, and the graph of a part of all items that holds both.
#[derive(Drop)]
pub struct Again {
    pub touched: BTreeSet<u32>,
    pub reach: Reach,
    pub graph: Graph,
}

impl Again {
    /// What is judged again of a replica of which so many arrivals were seen, by the items that are kept as waiting for
    /// each change.
    pub fn of(
        alloc: Global,
        gate: &Gate,
        seen: usize,
        namers: &Namers,
        replica: &Replica,
    ) -> Result<Again, NoMemory>
        requires { seen ≤ length replica.now }
        ensures again { IfOk result (IsAgain gate.now replica.now seen) }
        ensures waiting { IfOk result (HasWaiting replica.now seen namers.now) }
    {
        let state = replica.state();
        let touched = touched_changes(alloc, replica.since(seen))?;
        let near = reach_of(alloc, state, namers, replica.since(seen))?;
        let reach = widened(alloc, state, near, &touched)?;
        let graph = graph_of(alloc, gate, state, &reach, &touched)?;
        Ok(Again {
            touched,
            reach,
            graph,
        })
    }

    /// The own conditions of the graph's items. For those of changes with a new operation a judge is asked, the others
    /// are read from the verdicts on the arrivals that were seen.
    pub fn owns<J: Judge>(
        &self,
        gate: &Gate,
        seen: usize,
        replica: &Replica,
        kept: &Verdicts,
        judge: &mut J,
    ) -> Result<Vec<Option<Condition>>, NoMemory>
        requires again { IsAgain gate.now replica.now seen self.now }
        requires kept { AreVerdicts gate.now (state_of (take seen replica.now)) kept.now }
        ensures owns { IfOk result (λ owns. AreOwns gate.now (state_of replica.now) self.now.graph.items owns.items) }
        ensures asked { OnOk result ((count : ℕ) → AreTouchedItems (state_of replica.now) (drop seen replica.now) count
            → J.asked judge.new ≡ counted (J.asked judge.old) count) }
        ensures at_most { (count : ℕ) → AreTouchedItems (state_of replica.now) (drop seen replica.now) count
            → J.asked judge.new ≤ counted (J.asked judge.old) count }
    {
        let items = self.graph.items();
        owns_of(gate, seen, replica, items, &self.touched, kept, judge)
    }
}
