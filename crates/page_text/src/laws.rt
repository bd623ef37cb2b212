//! What holds of lists of items, over the definitions alone.

ghost use Rattle.std.specs.Prelude.{◌≡◌, ◌++◌, ◌*◌, ℕ, List, None, flat_map, length, take};
ghost use Rattle.page_routes.specs.declared.route.Choice.{Choice};
ghost use Rattle.page_routes.specs.declared.route.Shown.TheVariants.{All};
ghost use Rattle.state_core.specs.State.{State};
ghost use Rattle.ready_core.specs.Verdicts.{Judged};
ghost use Rattle.report_text.specs.Report.{end_line, report_of};
ghost use Rattle.page_text.specs.Rows.{chosen_rows, row_line, rows_to};
ghost use Rattle.page_text.specs.declared.rows.Row.{Row};

/// A law: the pages of a list, one after the other, are its first rows, so that enough of them are all; and the rows of
/// a list of all items spell the report.
pub fn pages_are_the_report()
    ensures pages { (pages : ℕ) (rows : List Row) → rows_to pages rows ≡ take (100 * pages) rows }
    ensures report { (state : State) (choice : Choice) (verdicts : Judged) → choice.shown ≡ All
        → choice.reason ≡ None → choice.words ≡ None
        → flat_map row_line (chosen_rows state choice verdicts)
        ++ end_line (length verdicts.ready) (length verdicts.out) ≡ report_of verdicts }
{}
