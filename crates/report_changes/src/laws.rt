//! What holds of groups of lines, over the definitions alone.

ghost use Rattle.std.specs.Prelude.{◌≡◌, ◌++◌, ◌∷◌, [], ℕ, All, List, map};
ghost use Rattle.std.specs.List.{AllByRecursion};
ghost use Rattle.gate_rules.specs.Rules.{GateRules};
ghost use Rattle.ready_core.specs.Verdicts.{AreVerdicts, Judged};
ghost use Rattle.state_core.specs.State.{State};
ghost use Rattle.state_core.specs.declared.item.Item.{Item};
ghost use Rattle.report_changes.specs.Following.{NamesEachOnce, StandsIn, after_lines, all_changed, empty};
ghost use Rattle.report_changes.specs.Following.{nothing_listed};
ghost use Rattle.report_changes.specs.declared.lines.Line.{Line};
ghost use Rattle.report_changes.specs.Lines.{group_text};
ghost use Rattle.report_changes.specs.Listing.{listed_of};
ghost use Rattle.report_changes.specs.Reading.{GroupLine, IsSmallEntry, group_lines, entries_text, entry_read};

/// A law: the groups of verdicts in turn, followed line by line from nothing on, give exactly the items that are listed
/// of the last verdicts: which are ready, and each other one's refusal.
pub fn groups_give_what_is_listed()
    ensures { (earlier : List Judged) → (last : Judged) → All NamesEachOnce (earlier ++ last ∷ []) → (item : Item)
        → StandsIn (listed_of last) item (after_lines (all_changed empty (earlier ++ last ∷ [])) nothing_listed item) }
{}

/// A law: the verdicts on a state have no item in both lists, and none twice among those that are left out.
pub fn verdicts_name_each_once()
    ensures { (gate : GateRules) → (state : State) → (verdicts : Judged) → AreVerdicts gate state verdicts
        → NamesEachOnce verdicts }
{}

/// A law: the text of groups, one after the other, determines their lines, but for the rank of an item that is left
/// out, and how each group ends.
pub fn groups_have_one_reading()
    ensures groups { (lines : List Line) → (ready out : ℕ)
        → group_text lines ready out ≡ entries_text (group_lines lines ready out) }
    ensures reading { (entries others : List GroupLine) → AllByRecursion IsSmallEntry entries
        → AllByRecursion IsSmallEntry others → entries_text entries ≡ entries_text others
        → map entry_read entries ≡ map entry_read others }
{}
