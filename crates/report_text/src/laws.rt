//! What holds of reports, over the definitions alone.

ghost use Rattle.std.specs.Prelude.{◌≡◌, map};
ghost use Rattle.state_core.specs.State.{State};
ghost use Rattle.gate_rules.specs.Rules.{GateRules};
ghost use Rattle.ready_core.specs.Verdicts.{AreVerdicts, Judged};
ghost use Rattle.report_text.specs.Agreement.{PrintTheSame};
ghost use Rattle.report_text.specs.Report.{report_of};
ghost use Rattle.report_text.specs.Printed.{AreSmall, printed};

use ready_core::verdicts_are_unique;

/// A law: the text of a report determines which items are ready, and the refusal of each other item.
pub fn reports_have_one_reading()
    ensures { (verdicts others : Judged) → AreSmall verdicts → AreSmall others
        → report_of verdicts ≡ report_of others
        → (verdicts.ready ≡ others.ready) × (map printed verdicts.out ≡ map printed others.out) }
{}

/// A law: under one gate equal states print equal reports.
pub fn equal_states_print_equal_reports()
    ensures { (gate : GateRules) → (state other : State) → (verdicts others : Judged) → state ≡ other
        → AreVerdicts gate state verdicts → AreVerdicts gate other others
        → report_of verdicts ≡ report_of others }
{
    verdicts_are_unique();
}

/// A law: equal states print the same: one state text, and one report under each gate.
pub fn equal_states_print_the_same()
    ensures { (state other : State) → state ≡ other → PrintTheSame state other }
{
    equal_states_print_equal_reports();
}
