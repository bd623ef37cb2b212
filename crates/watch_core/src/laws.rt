//! The laws of bringing verdicts up to date, over the definitions alone.

ghost use Rattle.std.specs.Prelude.{◌≡◌, ◌↔◌, ◌++◌, ℕ, Bool, List, Option, Contains};
ghost use Rattle.std.specs.FinMap.{get};
ghost use Rattle.review_ops.specs.Operation.{Operation};
ghost use Rattle.walk_core.specs.Walks.{IsOfKind};
ghost use Rattle.walk_core.specs.Ranks.{IsRank, Rank};
ghost use Rattle.state_core.specs.State.{State, state_of};
ghost use Rattle.state_core.specs.Items.{IsCurrentItem, IsItem, item_cmp};
ghost use Rattle.state_core.specs.Known.{IsMerged};
ghost use Rattle.state_core.specs.declared.item.Item.{Item};
ghost use Rattle.gate_rules.specs.Own.{IsOwn};
ghost use Rattle.gate_rules.specs.Rules.{GateRules};
ghost use Rattle.gate_rules.specs.declared.condition.Condition.{Condition};
ghost use Rattle.graph_core.specs.Dependencies.{IsDependency, Names};
ghost use Rattle.ready_core.specs.Refusals.{IsReady, IsRefused};
ghost use Rattle.ready_core.specs.declared.verdicts.Refusal.{Refusal};
ghost use Rattle.watch_core.specs.Touched.{HoldsWhatWaits, IsTouched};
ghost use Rattle.watch_core.specs.Untouched.{IsUntouched, others};
ghost use Rattle.watch_core.specs.BroughtUp.{AreRankedVerdicts, AreRankedVerdictsOn, HoldsItems, IsBroughtUp};
ghost use Rattle.watch_core.specs.BroughtUp.{RankedVerdicts};

/// A law: where operations come to a journal, a change that none of them is on is as it was, and so are its items, its
/// current patch set, and of each of its items the own condition and the changes that it names. Any
/// change that was merged stays merged.
pub fn untouched_changes_stay()
    ensures same { (journal later : List Operation) → (number : ℕ) → ¬ IsTouched later number
        → get (state_of journal) number ≡ get (state_of (journal ++ later)) number }
    ensures items { (journal later : List Operation) → (item : Item) → ¬ IsTouched later item.change
        → IsItem (state_of journal) item ↔ IsItem (state_of (journal ++ later)) item }
    ensures current { (journal later : List Operation) → (item : Item) → ¬ IsTouched later item.change
        → IsCurrentItem (state_of journal) item ↔ IsCurrentItem (state_of (journal ++ later)) item }
    ensures own { (gate : GateRules) → (journal later : List Operation) → (item : Item)
        → ¬ IsTouched later item.change → (own : Option Condition)
        → IsOwn gate (state_of journal) item own ↔ IsOwn gate (state_of (journal ++ later)) item own }
    ensures names { (gate : GateRules) → (journal later : List Operation) → (item : Item)
        → ¬ IsTouched later item.change → (number : ℕ)
        → Names gate (state_of journal) item number ↔ Names gate (state_of (journal ++ later)) item number }
    ensures merged { (journal later : List Operation) → (number : ℕ) → IsMerged (state_of journal) number
        → IsMerged (state_of (journal ++ later)) number }
{}

/// A law: the verdict on an item depends only on the items that it reaches. In two states in which a part of the items
/// is untouched, each item of the part is ready in both or in neither, is left out for the same refusals, and has the
/// same rank among the ready items.
pub fn verdicts_are_local()
    ensures ready { (gate : GateRules) → (before after : State) → (part : Item → Bool)
        → IsUntouched gate before after part → (item : Item) → IsOfKind part item
        → IsReady gate before item ↔ IsReady gate after item }
    ensures refused { (gate : GateRules) → (before after : State) → (part : Item → Bool)
        → IsUntouched gate before after part → (item : Item) → IsOfKind part item → (refusal : Refusal) → (rank : ℕ)
        → IsRefused gate before item refusal rank ↔ IsRefused gate after item refusal rank }
    ensures ranked { (gate : GateRules) → (before after : State) → (part : Item → Bool)
        → IsUntouched gate before after part → (rank : Rank Item) → IsOfKind part rank.node
        → IsRank item_cmp (IsDependency gate before) (IsReady gate before) rank
        ↔ IsRank item_cmp (IsDependency gate after) (IsReady gate after) rank }
{}

/// A law: where operations come to a journal, and some items hold all items of the changes that these are on, all that
/// waited for such a change, and all that waited for one of them, the other items are untouched.
pub fn what_is_not_reached_stays()
    ensures { (gate : GateRules) → (journal later : List Operation) → (reached : Item → Bool)
        → HoldsWhatWaits gate journal later reached
        → IsUntouched gate (state_of journal) (state_of (journal ++ later)) (others reached) }
{}

/// A law: the verdicts of a state, of which those on some items are taken from that state, and those on the others,
/// which are untouched, from an earlier state, are the verdicts of the state.
pub fn verdicts_are_brought_up()
    ensures { (gate : GateRules) → (before after : State) → (reached : Item → Bool)
        → IsUntouched gate before after (others reached) → (old found new : RankedVerdicts)
        → AreRankedVerdicts gate before old → (items : List Item) → AreRankedVerdictsOn gate after items found
        → HoldsItems after reached items
        → IsBroughtUp reached old found new → AreRankedVerdicts gate after new }
{}
