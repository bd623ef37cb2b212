//! The project and the branch of the change in a row of a query.

ghost use Rattle.std.specs.Prelude.{◌≡◌, IfOk, IsUtf8, option_map};
ghost use Rattle.gerrit_events.specs.Rows.{IsRow, RowSays, SaysQueryLine, copied, place_in};
ghost use Rattle.gerrit_events.specs.Trees.{data_in};

use super::kind::Kind;
use super::read::object_of;
use super::value::{number_in, text_in, under};
use json::{Scratch, Value};
use lattice_core::NoMemory;
use std::alloc::Global;
use std::str;

/// A change, with its project and its branch by Gerrit's names.
#[derive(Debug, Drop)]
pub struct ChangePlace {
    pub change: u32,
    pub project: String,
    pub branch: String,
}

/// A line of the answer to a query, as far as `enqueue` reads it.
#[derive(Debug, Drop)]
pub enum QueryLine {
    /// A row: the place of its change.
    Row(ChangePlace),
    /// The end of the answer.
    Stats,
    /// The line is neither, or its row lacks the number, the project or the branch.
    Other,
}

/// The same, borrowed from the line.
#[derive(Clone, Copy)]
struct Found<'a> {
    change: u32,
    project: &'a str,
    branch: &'a str,
}

/// What a line of the answer to a query says of where a change is. It costs O(n) for n bytes of the line.
pub fn read_query_line(alloc: Global, line: &[u8]) -> Result<QueryLine, NoMemory>
    ensures { IfOk result (SaysQueryLine line.now) }
{
    match str::from_utf8(line) {
        Ok(text) => read_query_text(alloc, text),
        Err(_) => Ok(QueryLine::Other),
    }
}

/// The same of the text of a line.
fn read_query_text(alloc: Global, text: &str) -> Result<QueryLine, NoMemory>
    requires { IsUtf8 text.now }
    ensures { IfOk result (SaysQueryLine text.now) }
{
    let mut room = Scratch::new(alloc);
    match object_of(alloc, &mut room, text)? {
        Some(value) => line_of(alloc, &value),
        None => Ok(QueryLine::Other),
    }
}

/// The same of the object that a line is.
fn line_of(alloc: Global, value: &Value<'_>) -> Result<QueryLine, NoMemory>
    ensures { IfOk result (RowSays (data_in value.now)) }
{
    match Kind::of(value) {
        Some(Kind::QueryStats) => Ok(QueryLine::Stats),
        Some(Kind::QueryLine) => row_of(alloc, found_in(value)),
        _ => Ok(QueryLine::Other),
    }
}

/// The place of a row, where it has all of it.
fn found_in<'a>(value: &Value<'a>) -> Option<Found<'a>>
    ensures { option_map copied result ≡ place_in (data_in value.now) }
{
    let change = number_in(under("number", Some(value)))?;
    let project = text_in(under("project", Some(value)))?;
    let branch = text_in(under("branch", Some(value)))?;
    Some(Found {
        change,
        project,
        branch,
    })
}

/// A copy of the place of a row.
fn row_of(alloc: Global, found: Option<Found<'_>>) -> Result<QueryLine, NoMemory>
    ensures { IfOk result (λ line. IsRow (option_map copied found.entry) line) }
{
    let Some(found) = found else {
        return Ok(QueryLine::Other);
    };
    Ok(QueryLine::Row(ChangePlace {
        change: found.change,
        project: String::from_str(alloc, found.project)?,
        branch: String::from_str(alloc, found.branch)?,
    }))
}
