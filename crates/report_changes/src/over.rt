//! Which refusals say that an item is over.

ghost use Rattle.std.specs.Prelude.{◌≡◌};
ghost use Rattle.report_changes.specs.Over.{is_over};

use gate_rules::Clause;
use ready_core::Refusal;

/// Whether an item that is left out for this refusal is over: its change has not the status that the gate asks for, or
/// the item isn't the patch set that it asks for. It costs O(1).
pub fn is_over(refusal: Refusal) -> bool
    ensures { result ≡ is_over refusal }
{
    match refusal {
        Refusal::Own(condition) => match condition.clause {
            Clause::OpenState | Clause::CurrentSet | Clause::StatusIn => true,
            Clause::Approval(_) => false,
        },
        Refusal::Cycle | Refusal::Unknown(_) | Refusal::Dependency(_) => false,
    }
}
