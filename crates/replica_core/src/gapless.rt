//! How far a journal goes without a gap.

ghost use Rattle.std.specs.Prelude.{◌≡◌, IfOk};
ghost use Rattle.replica_core.specs.Front.{IsFront};
ghost use Rattle.replica_core.specs.Lines.{front_of};

use super::front::Front;
use super::line::Line;
use super::replica::Replica;
use chunk_list::ChunkList;
use lattice_core::NoMemory;
use std::alloc::Allocator;

impl<A: Allocator + Copy> Replica<A> {
    /// How far the journal goes without a gap, row by row: for each site and start of which it has the first operation,
    /// the greatest sequence number that it has with all before it. It costs O(n log n) time and O(n) memory for n
    /// rows.
    pub fn front(&self) -> Result<Front<A>, NoMemory>
        ensures { IfOk result (λ front. IsFront self.now front) }
    {
        front_of(self.allocator(), &self.lines)
    }
}

/// How far these lines go without a gap.
fn front_of<A: Allocator + Copy>(
    alloc: A,
    lines: &ChunkList<Line<A>, A>,
) -> Result<Front<A>, NoMemory>
    ensures { IfOk result (λ front. front ≡ front_of lines.now) }
{
    let mut front = Front::new(alloc);
    for line in lines.iter() {
        front.raise(line.row(), line.reach())?;
    }
    Ok(front)
}
