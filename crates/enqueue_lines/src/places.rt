//! Where changes are to be merged.

ghost use Rattle.std.specs.Prelude.{◌≡◌, ℕ, IfErr, IfOk, OnOk, true};
ghost use Rattle.std.specs.Option.{option_or};
ghost use Rattle.byte_ends.specs.Lines.{lines_of};
ghost use Rattle.gerrit_events.specs.declared.row.QueryLine.{QueryLine};
ghost use Rattle.enqueue_lines.specs.Places.{AddsLine, ArePlacesOfRows, IsRefusedQuery, place_by, known_place};

use super::fault::EnqueueFault;
use byte_ends::Lines;
use gerrit_events::{ChangePlace, QueryLine, read_query_line};
use std::alloc::Global;
use std::collections::BTreeMap;

/// The projects and branches of changes, by their numbers.
pub type Places = BTreeMap<u32, ChangePlace>;

/// The places that the answer to a query says, as Gerrit's `query --format=JSON` writes it: one JSON object a line. The
/// last row of a change counts. Refusals: 9 `BadQuery`, the line of this number is the first one that is neither a row
/// with a number, a project and a branch, nor ends the answer; 5 `NoMemory`. It costs O(n log n) for n bytes.
pub fn read_places(alloc: Global, text: &[u8]) -> Result<Places, EnqueueFault>
    ensures read { IfOk result (ArePlacesOfRows (lines_of text.now)) }
    ensures refused { IfErr result (IsRefusedQuery (lines_of text.now)) }
{
    let mut places = BTreeMap::new(alloc);
    let mut lines = Lines::new(text);
    let mut number = 0u64;
    while let Some(line) = lines.next_line() {
        number = number.saturating_add(1);
        if !add_line(alloc, &mut places, line)? {
            return Err(EnqueueFault::BadQuery(number));
        }
    }
    Ok(places)
}

/// Adds what a line says. Answers whether it says anything.
fn add_line(alloc: Global, places: &mut Places, line: &[u8]) -> Result<bool, EnqueueFault>
    ensures says { IfOk result (λ says. AddsLine line.now places.old places.new says) }
    ensures fault { IfErr result (λ fault. fault ≡ EnqueueFault.NoMemory) }
{
    match read_query_line(alloc, line) {
        Ok(QueryLine::Row(row)) => add_row(places, row),
        Ok(QueryLine::Stats) => Ok(true),
        Ok(QueryLine::Other) => Ok(false),
        Err(_) => Err(EnqueueFault::NoMemory),
    }
}

/// Adds a row.
fn add_row(places: &mut Places, row: ChangePlace) -> Result<bool, EnqueueFault>
    ensures added { OnOk result ((change : ℕ) → known_place places.new change
        ≡ option_or (place_by (QueryLine.Row row) change) (known_place places.old change)) }
    ensures ok { IfOk result (λ says. says ≡ true) }
    ensures fault { IfErr result (λ fault. fault ≡ EnqueueFault.NoMemory) }
{
    match places.insert(row.change, row) {
        Ok(_) => Ok(true),
        Err(_) => Err(EnqueueFault::NoMemory),
    }
}
