//! What holds of texts, over the definitions alone.

ghost use Rattle.std.specs.Prelude.{◌≡◌, ℕ, List};
ghost use Rattle.op_text.specs.Text.{IsOneLine, body_text, operation_text};
ghost use Rattle.review_ops.specs.Good.{IsGood};
ghost use Rattle.review_ops.specs.Operation.{Operation};
ghost use Rattle.review_ops.specs.Deed.{Deed};
ghost use Rattle.review_ops.specs.Timestamp.{IsNumbered};
ghost use Rattle.replica_core.specs.Front.{Reaches};
ghost use Rattle.op_text.specs.Front.{SpellsFront};
ghost use Rattle.op_text.specs.Spelling.{SpellsBody, SpellsOperation};

/// A law: the text of each operation is one line, and spells the operation.
pub fn operations_are_spelled()
    ensures line { (op : Operation) → IsNumbered op.stamp → IsGood op.deed → IsOneLine (operation_text op) }
    ensures spells { (op : Operation) → IsNumbered op.stamp → IsGood op.deed → SpellsOperation (operation_text op) op }
{}

/// A law: the text of each good body is one line, and spells the body.
pub fn bodies_are_spelled()
    ensures line { (deed : Deed) → IsGood deed → IsOneLine (body_text deed) }
    ensures spells { (deed : Deed) → IsGood deed → SpellsBody (body_text deed) deed }
{}

/// A law: a text spells one operation at most, one body and one front.
pub fn texts_spell_once()
    ensures operation { (text : List ℕ) (op other : Operation) → SpellsOperation text op → SpellsOperation text other
        → op ≡ other }
    ensures body { (text : List ℕ) (deed other : Deed) → SpellsBody text deed → SpellsBody text other → deed ≡ other }
    ensures front { (text : List ℕ) (front other : Reaches) → SpellsFront text front → SpellsFront text other
        → front ≡ other }
{}
