//! What holds of scripts, over the definitions alone.

ghost use Rattle.std.specs.Prelude.{ℕ, List, Option};
ghost use Rattle.gate_rules.specs.Rules.{GateRules};
ghost use Rattle.script_text.specs.declared.script.Step.{Step};
ghost use Rattle.script_text.specs.Script.{IsSameScript, SaysScript};

/// A law: a script has one reading at most: so many sites, steps that ask for the same, and one line that says none.
pub fn scripts_have_one_reading()
    ensures { (gate : Option GateRules) (text : List ℕ) (sites others : ℕ) (steps more : List Step)
        (bad worse : Option ℕ)
        → SaysScript gate text sites steps bad → SaysScript gate text others more worse
        → IsSameScript sites steps bad others more worse }
{}
