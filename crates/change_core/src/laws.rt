//! What follows for any operations on a change, as a function that does nothing: its contract is the law.

ghost use Rattle.std.specs.Prelude.{◌≡◌, ◌++◌, ◌∷◌, [], List, Contains};
ghost use Rattle.review_ops.specs.Operation.{Operation};
ghost use Rattle.change_core.specs.Change.{Change, change_joined, effect_of, no_change};
ghost use Rattle.change_core.specs.StateOf.{IsStateOf};

/// A law: no operation adds up to the state of nothing, one operation to its effect, and the operations of two lists to
/// the join of what each adds up to; the same operations, in whatever order and however often, add up to one state.
pub fn operations_add_up()
    ensures none { IsStateOf [] no_change }
    ensures one { (op : Operation) → IsStateOf (op ∷ []) (effect_of op) }
    ensures both { (xs ys : List Operation) → (a b : Change) → IsStateOf xs a → IsStateOf ys b
        → IsStateOf (xs ++ ys) (change_joined a b) }
    ensures unique { (xs ys : List Operation) → (a b : Change) → ((op : Operation) → Contains xs op → Contains ys op)
        → ((op : Operation) → Contains ys op → Contains xs op) → IsStateOf xs a → IsStateOf ys b → a ≡ b }
{}
