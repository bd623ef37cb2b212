//! Verdicts that follow a replica.

ghost use Rattle.std.specs.Prelude.{◌≡◌, ◌≤◌, ℕ, IfOk, IsOk, IsSome, OnErr, OnOk, None, drop, length, take};
ghost use Rattle.std.specs.Option.{option_copied};
ghost use Rattle.state_core.specs.State.{state_of};
ghost use Rattle.ready_core.specs.Verdicts.{AreVerdicts};
ghost use Rattle.watch_core.specs.Asked.{AreTouchedItems, counted};
ghost use Rattle.watch_core.specs.Watching.{AreKeptVerdicts, AreOfSeen, FollowsJournal, Precedes};

use super::again::Again;
use super::bring::put_in_place;
use super::judge::{GateJudge, Judge};
use super::namers::{Namers, add_graph};
use gate_rules::Gate;
use graph_core::Graph;
use lattice_core::NoMemory;
use ready_core::{ItemRank, Verdicts, items_of, own_conditions, ranked_on};
use replica_core::Replica;
use std::collections::BTreeMap;
use std::marker::Model;

/// The verdicts on a replica under a gate, which are brought up to date as operations arrive. Contracts see the gate,
/// how many arrivals were seen, the verdicts, and what is kept beside them: what each ready item is ordered by, and
/// which items wait for each change.
#[derive(Drop)]
pub struct Evaluator {
    gate: Gate,
    seen: usize,
    verdicts: Option<Verdicts>,
    ranks: Vec<ItemRank>,
    namers: Namers,
}

impl Model for Evaluator {
    ghost use Rattle.std.specs.Prelude.{map};
    ghost use Rattle.ready_core.specs.ItemRanks.{to_rank};
    ghost use Rattle.watch_core.specs.Namers.{namer_rows};
    ghost use Rattle.watch_core.specs.Watching.{Watching};

    ghost Value = { Watching };

    ghost view = { λ evaluator. record {
      gate = evaluator.gate;
      seen = evaluator.seen;
      verdicts = evaluator.verdicts;
      ranks = map to_rank evaluator.ranks.items;
      namers = namer_rows evaluator.namers;
    } };
}

impl Evaluator {
    /// An evaluator with the verdicts on a replica. It costs what `evaluate` does.
    pub fn fresh(gate: Gate, replica: &Replica) -> Result<Evaluator, NoMemory>
        ensures gate { IfOk result (λ evaluator. evaluator.gate ≡ gate) }
        ensures follows { IfOk result (λ evaluator. FollowsJournal evaluator replica.now) }
    {
        let alloc = replica.allocator();
        let mut evaluator = Evaluator {
            gate,
            seen: 0,
            verdicts: None,
            ranks: Vec::new(alloc),
            namers: BTreeMap::new(alloc),
        };
        evaluator.start(replica)?;
        Ok(evaluator)
    }

    /// The verdicts on the replica that was seen last, or none where memory was refused to the last update. Takes no
    /// memory.
    pub fn verdicts(&self) -> Option<&Verdicts>
        ensures { option_copied result ≡ self.now.verdicts }
    {
        self.verdicts.as_ref()
    }

    /// Brings the verdicts up to those on a replica whose arrivals begin with those that were seen. Only the items are
    /// judged again that reach a change with a new operation, over changes that aren't merged: it costs what `evaluate`
    /// does on these and all that they reach, and to put them into the lists of all items. Where they are many, it
    /// costs what `evaluate` does. Where memory is refused there are no verdicts, and the next update works from
    /// scratch. Where there are verdicts and nothing arrived, it takes no memory.
    pub fn update(&mut self, replica: &Replica) -> Result<(), NoMemory>
        requires { Precedes self.old replica.now }
        ensures gate { self.new.gate ≡ self.old.gate }
        ensures follows { OnOk result (FollowsJournal self.new replica.now) }
        ensures refused { OnErr result (self.new.verdicts ≡ None) }
        ensures idle { IsSome self.old.verdicts → self.old.seen ≡ length replica.now
            → IsOk result × (self.new ≡ self.old) }
    {
        self.update_with(replica, &mut GateJudge::new())
    }

    /// As `update`, by a judge of own conditions. Where there are verdicts, it is asked once for each item of a change
    /// with a new operation, and, where memory is refused, at most so often.
    pub fn update_with<J: Judge>(
        &mut self,
        replica: &Replica,
        judge: &mut J,
    ) -> Result<(), NoMemory>
        requires { Precedes self.old replica.now }
        ensures gate { self.new.gate ≡ self.old.gate }
        ensures follows { OnOk result (FollowsJournal self.new replica.now) }
        ensures refused { OnErr result (self.new.verdicts ≡ None) }
        ensures idle { IsSome self.old.verdicts → self.old.seen ≡ length replica.now
            → IsOk result × (self.new ≡ self.old) }
        ensures asked { OnOk result (IsSome self.old.verdicts → (count : ℕ)
            → AreTouchedItems (state_of replica.now) (drop self.old.seen replica.now) count
            → J.asked judge.new ≡ counted (J.asked judge.old) count) }
        ensures at_most { IsSome self.old.verdicts → (count : ℕ)
            → AreTouchedItems (state_of replica.now) (drop self.old.seen replica.now) count
            → J.asked judge.new ≤ counted (J.asked judge.old) count }
    {
        let Some(kept) = self.verdicts.take() else {
            return self.start(replica);
        };
        if self.seen == replica.len() {
            self.verdicts = Some(kept);
            return Ok(());
        }
        let verdicts = self.brought_up(replica, kept, judge)?;
        self.seen = replica.len();
        self.verdicts = Some(verdicts);
        Ok(())
    }

    /// Evaluates from scratch.
    fn start(&mut self, replica: &Replica) -> Result<(), NoMemory>
        requires { self.old.verdicts ≡ None }
        ensures gate { self.new.gate ≡ self.old.gate }
        ensures follows { OnOk result (FollowsJournal self.new replica.now) }
        ensures refused { OnErr result (self.new.verdicts ≡ None) }
    {
        let alloc = replica.allocator();
        let state = replica.state();
        let graph = Graph::build(alloc, state, &self.gate)?;
        let owns = own_conditions(alloc, state, &self.gate, graph.items())?;
        let found = ranked_on(alloc, state, &self.gate, &graph, owns.as_slice())?;
        let mut namers = BTreeMap::new(alloc);
        add_graph(&mut namers, alloc, &graph)?;
        let (ranks, out) = found.into_lists();
        let ready = items_of(alloc, ranks.as_slice())?;
        self.ranks = ranks;
        self.namers = namers;
        self.seen = replica.len();
        self.verdicts = Some(Verdicts::new(ready, out));
        Ok(())
    }

    /// The verdicts on a replica, by those on its first arrivals.
    fn brought_up<J: Judge>(
        &mut self,
        replica: &Replica,
        kept: Verdicts,
        judge: &mut J,
    ) -> Result<Verdicts, NoMemory>
        requires none { self.old.verdicts ≡ None }
        requires kept { AreOfSeen self.old replica.now kept }
        ensures gate { self.new.gate ≡ self.old.gate }
        ensures none { self.new.verdicts ≡ None }
        ensures verdicts { IfOk result (AreVerdicts self.new.gate (state_of replica.now)) }
        ensures kept { IfOk result (AreKeptVerdicts self.new.gate (state_of replica.now) self.new.ranks self.new.namers) }
        ensures asked { OnOk result
            ((count : ℕ) → AreTouchedItems (state_of replica.now) (drop self.old.seen replica.now) count
            → J.asked judge.new ≡ counted (J.asked judge.old) count) }
        ensures at_most { (count : ℕ) → AreTouchedItems (state_of replica.now) (drop self.old.seen replica.now) count
            → J.asked judge.new ≤ counted (J.asked judge.old) count }
    {
        let alloc = replica.allocator();
        let again = Again::of(alloc, &self.gate, self.seen, &self.namers, replica)?;
        let owns = again.owns(&self.gate, self.seen, replica, &kept, judge)?;
        let state = replica.state();
        let found = ranked_on(alloc, state, &self.gate, &again.graph, owns.as_slice())?;
        add_graph(&mut self.namers, alloc, &again.graph)?;
        put_in_place(
            alloc,
            &again.reach,
            &again.touched,
            kept,
            &mut self.ranks,
            found,
        )
    }
}
