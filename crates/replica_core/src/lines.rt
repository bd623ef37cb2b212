//! The lines of a journal: one for each row, in the order of the rows.

ghost use Rattle.std.specs.Prelude.{◌≡◌, List, slice_get, slice_set, OnOk, MatchOption};
ghost use Rattle.std.specs.List.{Contains};
ghost use Rattle.std.specs.List.Sorted.{IsStrictlySortedBy};
ghost use Rattle.review_ops.specs.Operation.{Operation};
ghost use Rattle.replica_core.specs.Front.{row_order};
ghost use Rattle.replica_core.specs.Lines.{row_of, rows_of, AreLines};
ghost use Rattle.replica_core.specs.Searches.{is_earlier_row, line_rank};

use super::front::Row;
use super::line::Line;
use chunk_list::{ChunkList, Probe};
use lattice_core::NoMemory;
use review_ops::Op;
use std::alloc::Allocator;

/// The lines of the rows before this one.
#[derive(Drop)]
struct Earlier {
    row: Row,
}

impl<A: Allocator + Copy> Probe<Line<A>> for Earlier {
    ghost passes = { λ earlier line. is_earlier_row (earlier.row.site, earlier.row.start) (row_of line) };

    fn passes(&self, line: &Line<A>) -> bool {
        line.row().cmp(&self.row).is_lt()
    }
}

/// The line of a row, in lines in the order of their rows. It costs O(log n) for n rows.
pub(super) fn find_line<A: Allocator + Copy>(
    lines: &ChunkList<Line<A>, A>,
    row: Row,
) -> Option<&Line<A>>
    requires { IsStrictlySortedBy row_order (rows_of lines.now) }
    ensures { MatchOption result
        (Contains (rows_of lines.now) (row.site, row.start) → ⊥)
        (λ line. Contains lines.now line.now × (row_of line.now ≡ (row.site, row.start))) }
{
    let line = lines.first_failing(&Earlier { row })?;
    if line.row().cmp(&row).is_eq() {
        Some(line)
    } else {
        None
    }
}

/// Adds a line for a row that has none. Where memory is refused nothing changes. It costs O(log n) for n rows, beside
/// what a `ChunkList` moves.
pub(super) fn open_line<A: Allocator + Copy>(
    lines: &mut ChunkList<Line<A>, A>,
    alloc: A,
    row: Row,
) -> Result<(), NoMemory>
    requires { IsStrictlySortedBy row_order (rows_of lines.old) }
    ensures ok { OnOk result (Contains (rows_of lines.new) (row.site, row.start)) }
    ensures kept { (journal : List Operation) → AreLines journal lines.old → AreLines journal lines.new }
{
    match find_line(lines, row) {
        Some(_) => Ok(()),
        None => lines.insert(&Earlier { row }, Line::new(alloc, row)),
    }
}

/// Replaces the line of its row, and returns the old one.
pub(super) fn exchange<A: Allocator + Copy>(
    lines: &mut ChunkList<Line<A>, A>,
    line: Line<A>,
) -> Option<Line<A>>
    requires { IsStrictlySortedBy row_order (rows_of lines.old) }
    ensures found { result ≡ slice_get lines.old (line_rank lines.old (row_of line)) }
    ensures lines { lines.new ≡ slice_set lines.old (line_rank lines.old (row_of line)) line }
{
    let row = line.row();
    lines.replace(&Earlier { row }, line)
}

/// The row of an operation.
pub(super) fn row_of<A: Allocator + Copy>(op: &Op<A>) -> Row
    ensures { result ≡ record { site = op.now.stamp.site; start = op.now.stamp.start } }
{
    let stamp = op.stamp();
    Row {
        site: stamp.site(),
        start: stamp.start(),
    }
}
