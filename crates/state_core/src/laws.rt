//! Laws of states, as functions without effect: the contract of each function is a law.

ghost use Rattle.std.specs.Prelude.{◌≡◌, ◌++◌, List, Contains};
ghost use Rattle.review_ops.specs.Operation.{Operation};
ghost use Rattle.state_core.specs.State.{IsJournalState, state_of, states_joined};

/// A law: a journal has one state, which has in each register the greatest of what the journal's operations write to
/// it, and the state of a union is the join of the states.
pub fn a_journal_has_one_state()
    ensures registers { (journal : List Operation) → IsJournalState journal (state_of journal) }
    ensures union { (xs ys : List Operation) → state_of (xs ++ ys) ≡ states_joined (state_of xs) (state_of ys) }
{}

/// A law: journals with the same operations, in whatever order and however often, have the same state.
pub fn equal_journals_have_equal_states()
    ensures { (xs ys : List Operation) → ((op : Operation) → Contains xs op → Contains ys op)
        → ((op : Operation) → Contains ys op → Contains xs op) → state_of xs ≡ state_of ys }
{}
