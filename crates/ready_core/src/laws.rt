//! What holds of closed sets and of verdicts, over the definitions alone.

ghost use Rattle.std.specs.Prelude.{◌≡◌, ◌↔◌, ◌<◌, ℕ, Bool, List, Contains, length};
ghost use Rattle.std.proofs.Common.{suc};
ghost use Rattle.walk_core.specs.Walks.{IsEdge, IsOfKind};
ghost use Rattle.walk_core.specs.Ranks.{EndsStandBefore, TogetherStandTogether};
ghost use Rattle.gate_rules.specs.Rules.{GateRules};
ghost use Rattle.state_core.specs.declared.item.Item.{Item};
ghost use Rattle.state_core.specs.State.{State};
ghost use Rattle.state_core.specs.Items.{IsCurrentItem};
ghost use Rattle.graph_core.specs.Dependencies.{IsDependency};
ghost use Rattle.ready_core.specs.declared.verdicts.Left.{Left};
ghost use Rattle.ready_core.specs.Closed.{AreSafe, HoldsEnds, IsClosed, IsInClosedSet, IsSafe};
ghost use Rattle.ready_core.specs.Refusals.{IsEligible};
ghost use Rattle.ready_core.specs.Verdicts.{AreVerdicts, Judged, LeadsOn};

/// A law: no walk leads from a member of a closed set to a node that isn't eligible. Edges are held as the list of
/// their ends.
pub fn closed_sets_are_safe<N>()
    ensures { (ends : N → List N) → (eligible : N → Bool) → (x : N)
        → IsInClosedSet (IsEdge ends) (IsOfKind eligible) x → IsSafe (IsEdge ends) (IsOfKind eligible) x }
{}

/// A law: of nodes that hold the ends of their edges, those from which no walk leads to one that isn't eligible are a
/// closed set, and the union of all closed sets.
pub fn safe_nodes_are_closed<N>()
    ensures closed { (ends : N → List N) → (eligible : N → Bool) → (nodes set : List N)
        → HoldsEnds (IsEdge ends) nodes → AreSafe (IsEdge ends) (IsOfKind eligible) nodes set
        → IsClosed (IsEdge ends) (IsOfKind eligible) set }
    ensures union { (ends : N → List N) → (eligible : N → Bool) → (nodes set : List N)
        → HoldsEnds (IsEdge ends) nodes → AreSafe (IsEdge ends) (IsOfKind eligible) nodes set → (x : N)
        → Contains nodes x → Contains set x ↔ IsInClosedSet (IsEdge ends) (IsOfKind eligible) x }
{}

/// A law: the ready items are a closed set of eligible items, and the greatest one.
pub fn ready_items_are_the_greatest_closed_set()
    ensures closed { (gate : GateRules) → (state : State) → (verdicts : Judged) → AreVerdicts gate state verdicts
        → IsClosed (IsDependency gate state) (IsEligible gate state) verdicts.ready }
    ensures greatest { (gate : GateRules) → (state : State) → (verdicts : Judged) → AreVerdicts gate state verdicts
        → (set : List Item) → IsClosed (IsDependency gate state) (IsEligible gate state) set
        → (item : Item) → Contains set item → Contains verdicts.ready item }
{}

/// A law: of a ready item each item that it waits for comes before it or is on its cycle, and what is between two items
/// of a cycle is on it. There is one such list, as `verdicts_are_unique` says.
pub fn ready_items_are_in_gate_order()
    ensures ends { (gate : GateRules) → (state : State) → (verdicts : Judged) → AreVerdicts gate state verdicts
        → EndsStandBefore (IsDependency gate state) verdicts.ready }
    ensures together { (gate : GateRules) → (state : State) → (verdicts : Judged) → AreVerdicts gate state verdicts
        → TogetherStandTogether (IsDependency gate state) verdicts.ready }
{}

/// A law: an item that is left out for a dependency has a rank above 0, and the current item of that dependency is left
/// out, too, with the rank below. So whoever follows the dependencies reaches an own condition, a cycle or an unknown
/// change after as many steps as the rank says, which are fewer than the items that are left out.
pub fn dependencies_lead_to_a_cause()
    ensures leads { (gate : GateRules) → (state : State) → (verdicts : Judged) → AreVerdicts gate state verdicts
        → (left : Left) → Contains verdicts.out left → LeadsOn state verdicts left }
    ensures short { (gate : GateRules) → (state : State) → (verdicts : Judged) → AreVerdicts gate state verdicts
        → (left : Left) → Contains verdicts.out left → left.rank < length verdicts.out }
{}

/// A law: one state has one list of verdicts under one gate.
pub fn verdicts_are_unique()
    ensures { (gate : GateRules) → (state : State) → (a b : Judged)
        → AreVerdicts gate state a → AreVerdicts gate state b → a ≡ b }
{}
