//! What the arguments of `queries` say.

ghost use Rattle.command_line.specs.Asking.{ArgumentsSay, IsPlanning, queries};
ghost use Rattle.command_line.specs.Values.{Finds};
ghost use Rattle.command_tree.specs.Rows.{rows_in};

use super::asked::{Asked, QueryWords};
use super::numbers::number_in;
use command_tree::{EVERY, GATHER, QUERY_PAUSE, Values};

/// `queries [--every MINUTES] [--gather SECONDS] [--pause SECONDS]`
pub fn queries_in<'a>(values: &Values<'_>) -> Option<Asked<'a>>
    ensures { Finds (ArgumentsSay queries (rows_in values.now)) result }
{
    match planning_in(values) {
        Some(words) => Some(Asked::Queries(words)),
        None => None,
    }
}

/// What a feed's queries are planned with.
fn planning_in(values: &Values<'_>) -> Option<QueryWords>
    ensures { Finds (IsPlanning (rows_in values.now)) result }
{
    Some(QueryWords {
        every: number_in(values, EVERY)?,
        gather: number_in(values, GATHER)?,
        pause: number_in(values, QUERY_PAUSE)?,
    })
}
