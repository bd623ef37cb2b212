//! What holds of conditions and of gate files, over the definitions alone.

ghost use Rattle.std.specs.Prelude.{◌≡◌, ℕ, List, Some};
ghost use Rattle.serde_json.specs.Data.{Data, Members};
ghost use Rattle.gate_rules.specs.Own.{IsBroken, ItemStanding};
ghost use Rattle.gate_rules.specs.Rules.{GateRules};
ghost use Rattle.gate_rules.specs.Spelling.{IsObject, SpellsGate};
ghost use Rattle.gate_rules.specs.declared.condition.Condition.{Condition};
ghost use Rattle.gate_rules.specs.Wanted.{wanted_value};

/// A law: of a condition that is broken the gate file has a value, so that what it asks is always named.
pub fn broken_conditions_are_wanted()
    ensures { (file : List ℕ) (gate : GateRules) (members : Members) → SpellsGate file gate → IsObject file members
        → (standing : ItemStanding) (condition : Condition) → IsBroken gate standing condition
        → (value : Data) × (wanted_value condition members ≡ Some value) }
{}
