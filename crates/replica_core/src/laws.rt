//! Laws of journals, as functions without effect: the contract of each function is a law.

ghost use Rattle.std.specs.Prelude.{◌≡◌, ◌||◌, ℕ, List};
ghost use Rattle.review_ops.specs.Operation.{Operation};
ghost use Rattle.replica_core.specs.Clock.{next_of};
ghost use Rattle.replica_core.specs.Front.{Reaches, IsFront};
ghost use Rattle.replica_core.specs.InOrder.{IsInOrderOf};
ghost use Rattle.replica_core.specs.Journal.{all_arrived, has};
ghost use Rattle.replica_core.specs.Missing.{IsMissing};
ghost use Rattle.replica_core.specs.Sets.{IsSameSet};
ghost use Rattle.state_core.specs.State.{state_of};

/// A law: journals with the same operations, in whatever order they came, have the same state, the same next stamps,
/// the same front, and lack the same operations of a front, which come in the same order.
pub fn equal_journals_agree()
    ensures state { (xs ys : List Operation) → IsSameSet xs ys → state_of xs ≡ state_of ys }
    ensures next { (xs ys : List Operation) (site start : ℕ) → IsSameSet xs ys
        → next_of xs site start ≡ next_of ys site start }
    ensures front { (xs ys : List Operation) (f g : Reaches) → IsSameSet xs ys → IsFront xs f → IsFront ys g → f ≡ g }
    ensures missing { (xs ys : List Operation) (front : Reaches) (ops others : List Operation) → IsSameSet xs ys
        → IsMissing xs front ops → IsMissing ys front others → ops ≡ others }
    ensures order { (xs ys ops others : List Operation) → IsSameSet xs ys → IsInOrderOf xs ops → IsInOrderOf ys others
        → ops ≡ others }
{}

/// A law: operations that come to a journal, in any order and with repeats, are added to it as a set.
pub fn operations_arrive_as_a_set()
    ensures { (journal ops : List Operation) → (op : Operation)
        → has (all_arrived journal ops) op ≡ (has journal op || has ops op) }
{}
