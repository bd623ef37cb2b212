//! What the tests of warnings mean.

ghost use Rattle.std.specs.Prelude.{◌≡◌, ◌↔◌, ◌||◌, All, ℕ, List, Some, false, slice_get, suc, true};
ghost use Rattle.change_core.specs.Status.{status_name};
ghost use Rattle.change_core.specs.declared.life.Status.{Status};
ghost use Rattle.gate_rules.specs.Own.{names};
ghost use Rattle.gate_rules.specs.Rules.{GateRules, PatternRule};
ghost use Rattle.gate_rules.specs.declared.condition.Clause.TheVariants.{Approval};
ghost use Rattle.gate_rules.specs.declared.condition.Side.{Side};
ghost use Rattle.gate_rules.specs.declared.condition.Side.TheVariants.{Reject, Require};
ghost use Rattle.gate_check.specs.Meeting.{IsNeverBroken, IsRejectedPattern, IsWritable, LetsNothingIn, TakesVoteOf};
ghost use Rattle.gate_check.specs.Meeting.{is_current_never_met, is_never_met, is_open_never_met, is_status_never_met};
ghost use Rattle.gate_check.specs.Meeting.{lets_none_in, rejects_nothing};
ghost use Rattle.gate_check.specs.Names.{AreTheSameTexts};
ghost use Rattle.gate_check.specs.Nearest.{FindsNearest};
ghost use Rattle.gate_check.specs.Warnings.{can_vote, is_status_name};
ghost use Rattle.review_ops.specs.Good.{IsVoter};

/// Where a gate has a condition that is never met, an item of any change breaks some condition of the gate. Where the
/// conditions on a change's status let none in, one of them is never met. An approval is never met just where each vote
/// that it takes, of which none is 0, is taken by one that is rejected.
pub fn what_is_never_met_lets_nothing_in()
    ensures opening { (gate : GateRules) (side : Side) → is_open_never_met gate side ≡ true → LetsNothingIn gate }
    ensures current { (gate : GateRules) (side : Side) → is_current_never_met gate side ≡ true → LetsNothingIn gate }
    ensures status { (gate : GateRules) (side : Side) → is_status_never_met gate side ≡ true → LetsNothingIn gate }
    ensures said { (gate : GateRules) → lets_none_in gate ≡ true
        → (side : Side) × ((is_open_never_met gate side || is_status_never_met gate side) ≡ true) }
    ensures approval { (gate : GateRules) (place : ℕ) (pattern : PatternRule)
        → slice_get gate.require.approvals place ≡ Some pattern → is_never_met gate Require pattern ≡ true
        → LetsNothingIn gate }
    ensures exact { (gate : GateRules) (pattern : PatternRule)
        → (is_never_met gate Require pattern ≡ true) ↔ IsRejectedPattern gate.reject.approvals pattern }
{}

/// Where an approval that is rejected rejects nothing, no item of any change breaks that condition. Any other one, if
/// its labels and values are such as those of a record, as in a gate file, takes a vote that a record may hold, which
/// isn't 0, by each voter whom it names.
pub fn what_rejects_nothing_is_never_broken()
    ensures broken { (gate : GateRules) (place : ℕ) (pattern : PatternRule)
        → slice_get gate.reject.approvals place ≡ Some pattern → rejects_nothing Reject pattern ≡ true
        → IsNeverBroken gate (record { side = Reject; clause = Approval (suc place) }) }
    ensures taken { (pattern : PatternRule) (voter : List ℕ) → rejects_nothing Reject pattern ≡ false
        → All IsWritable pattern.labels → IsVoter voter → names pattern.username voter ≡ true
        → TakesVoteOf pattern voter }
{}

/// Just the names of the statuses that a change may have are names of statuses.
pub fn status_names_are_those_of_changes()
    ensures { (name : List ℕ) → (is_status_name name ≡ true) ↔ (status : Status) × (name ≡ status_name status) }
{}

/// Just the names that a vote's voter may have are names that somebody can have.
pub fn voters_are_those_who_can_vote()
    ensures { (name : List ℕ) → (can_vote name ≡ true) ↔ IsVoter name }
{}

/// The name that is found to be nearest is one of the record's that is near enough, none of them is nearer, and those
/// before it in byte order are further; none is found just where each of them is too far. The names of a record, in
/// byte order and each once, are just those that some vote has.
pub fn the_nearest_name_is_found()
    ensures nearest { FindsNearest }
    ensures same { AreTheSameTexts }
{}
