//! The trait of those who are shown one moment of a running site.

ghost use Rattle.std.specs.Prelude.{◌≡◌, List};
ghost use Rattle.gate_rules.specs.Rules.{GateRules};
ghost use Rattle.ready_core.specs.Verdicts.{AreVerdicts, Judged};
ghost use Rattle.review_ops.specs.Operation.{Operation};
ghost use Rattle.state_core.specs.State.{state_of};

use ready_core::Verdicts;
use replica_core::Replica;

/// Who is shown a record and the verdicts on it, both of one moment. The site waits for it: it copies what it wants and
/// leaves.
pub trait Viewer {
    /// The gate under which it is shown verdicts.
    ghost judged_by: { Self → GateRules };

    /// From one state a look at a record and its verdicts leaves the other.
    ghost views: { Self → List Operation → Judged → Self → Type 0 };

    /// Looks at a record and at the verdicts on it.
    fn view(&mut self, replica: &Replica, verdicts: &Verdicts)
        requires { AreVerdicts (judged_by self.old) (state_of replica.now) verdicts.now }
        ensures viewed { views self.old replica.now verdicts.now self.new };
}
