//! What holds of the words in a picture, over the definitions alone.

ghost use Rattle.state_core.specs.declared.item.Item.{Item};
ghost use Rattle.ready_core.specs.declared.verdicts.Refusal.{Refusal};
ghost use Rattle.ready_core.specs.Words.{refusal_text};
ghost use Rattle.report_text.specs.Report.{item_text};
ghost use Rattle.report_text.specs.Printed.{IsSmallItem, IsSmallRefusal};
ghost use Rattle.graph_text.specs.Lines.{IsPlain};

/// A law: no quote, no backslash and no line end is in the words of an item or of a refusal, so that they stand for
/// themselves between the quotes of DOT's strings, as names and as labels.
pub fn words_need_no_escape()
    ensures item { (item : Item) → IsSmallItem item → IsPlain (item_text item) }
    ensures refusal { (refusal : Refusal) → IsSmallRefusal refusal → IsPlain (refusal_text refusal) }
{}
