//! Adds operations to a journal, and to the state that is kept up to date with it.

ghost use Rattle.std.specs.Prelude.{◌≡◌, IfOk, OnOk, OnErr, if◌then◌else◌};
ghost use Rattle.std.specs.List.{Contains};
ghost use Rattle.review_ops.specs.Operation.{Operation};
ghost use Rattle.replica_core.specs.Journal.{arrived, has, taken_of};
ghost use Rattle.replica_core.specs.Lines.{rows_of, row_of, IsFiled, IsLine, AreLines};
ghost use Rattle.replica_core.specs.Record.{IsKept};
ghost use Rattle.replica_core.specs.Searches.{with_place};
ghost use Rattle.state_core.specs.State.{with_effect};

use super::arrivals::Arrivals;
use super::line::{Line, climbed};
use super::lines::{exchange, open_line, row_of};
use super::probes::Below;
use super::taken::Taken;
use chunk_list::ChunkList;
use lattice_core::NoMemory;
use review_ops::Op;
use state_core::State;
use std::alloc::Allocator;

/// What is kept up to date with the arrivals of a journal.
pub(super) trait Follows<A: Allocator + Copy> {
    ghost after: { Self → Operation → Self };

    /// Follows one more arrival. Where memory is refused nothing changes.
    fn follow(&mut self, op: &Op<A>) -> Result<(), NoMemory>
        ensures ok { OnOk result (self.new ≡ after self.old op.now) }
        ensures err { OnErr result (self.new ≡ self.old) };
}

/// The state follows each arrival by its effect.
impl<A: Allocator + Copy> Follows<A> for State<A> {
    ghost after = { with_effect };

    fn follow(&mut self, op: &Op<A>) -> Result<(), NoMemory> {
        self.take(op)
    }
}

/// Nothing is kept up to date: the state is joined later.
#[derive(Drop)]
pub(super) struct Later;

impl<A: Allocator + Copy> Follows<A> for Later {
    ghost after = { λ later _. later };

    fn follow(&mut self, _op: &Op<A>) -> Result<(), NoMemory> {
        Ok(())
    }
}

/// Adds an operation to a journal: to the line of its row, to the arrivals and to what follows them, unless it is
/// there. Where memory is refused nothing changes, but that the row may have got a line without operations.
pub(super) fn arrive<A: Allocator + Copy, F: Follows<A>>(
    lines: &mut ChunkList<Line<A>, A>,
    arrivals: &mut Arrivals<A>,
    latest: &mut u64,
    follower: &mut F,
    alloc: A,
    op: Op<A>,
) -> Result<Taken, NoMemory>
    requires { IsKept arrivals.old.items lines.old latest.old }
    ensures ok { IfOk result (λ taken. (taken ≡ taken_of (has arrivals.old.items op))
        × (arrivals.new.items ≡ arrived arrivals.old.items op)
        × (follower.new ≡ (if has arrivals.old.items op then follower.old else F.after follower.old op))) }
    ensures err { OnErr result ((arrivals.new.items ≡ arrivals.old.items) × (follower.new ≡ follower.old)) }
    ensures kept { IsKept arrivals.new.items lines.new latest.new }
{
    let time = op.stamp().time();
    open_line(lines, alloc, row_of(&op))?;
    match file_in(lines, arrivals, follower, alloc, op)? {
        Taken::Known => Ok(Taken::Known),
        Taken::New => {
            *latest = (*latest).max(time);
            Ok(Taken::New)
        }
    }
}

/// Adds an operation to the line of its row, to the arrivals and to what follows them, unless it is there. Where memory
/// is refused nothing changes.
fn file_in<A: Allocator + Copy, F: Follows<A>>(
    lines: &mut ChunkList<Line<A>, A>,
    arrivals: &mut Arrivals<A>,
    follower: &mut F,
    alloc: A,
    op: Op<A>,
) -> Result<Taken, NoMemory>
    requires lines { AreLines arrivals.old.items lines.old }
    requires row { Contains (rows_of lines.old) (op.stamp.site, op.stamp.start) }
    ensures ok { IfOk result (λ taken. (taken ≡ taken_of (has arrivals.old.items op))
        × (arrivals.new.items ≡ arrived arrivals.old.items op)
        × AreLines arrivals.new.items lines.new
        × (follower.new ≡ (if has arrivals.old.items op then follower.old else F.after follower.old op))) }
    ensures err { OnErr result ((arrivals.new.items ≡ arrivals.old.items) × (lines.new ≡ lines.old)
        × (follower.new ≡ follower.old)) }
{
    let Some(mut line) = exchange(lines, Line::new(alloc, row_of(&op))) else {
        unreachable!()
    };
    let taken = file(&mut line, arrivals, follower, op);
    let _empty = exchange(lines, line);
    taken
}

/// Adds an operation to its line, to the arrivals and to what follows them, unless it is there. Where memory is refused
/// nothing changes.
fn file<A: Allocator + Copy, F: Follows<A>>(
    line: &mut Line<A>,
    arrivals: &mut Arrivals<A>,
    follower: &mut F,
    op: Op<A>,
) -> Result<Taken, NoMemory>
    requires line { IsLine arrivals.old.items line.old }
    requires row { row_of line.old ≡ (op.stamp.site, op.stamp.start) }
    ensures ok { IfOk result (λ taken. (taken ≡ taken_of (has arrivals.old.items op))
        × (arrivals.new.items ≡ arrived arrivals.old.items op)
        × IsLine arrivals.new.items line.new
        × (row_of line.new ≡ row_of line.old)
        × (follower.new ≡ (if has arrivals.old.items op then follower.old else F.after follower.old op))) }
    ensures err { OnErr result ((arrivals.new.items ≡ arrivals.old.items) × (line.new ≡ line.old)
        × (follower.new ≡ follower.old)) }
{
    if line.has(arrivals, &op) {
        return Ok(Taken::Known);
    }
    arrivals.reserve()?;
    enter(line, arrivals, follower, &op)?;
    arrivals.push_reserved(op);
    line.reach = climbed(arrivals, line);
    Ok(Taken::New)
}

/// Adds the place after all arrivals to the line of an operation, and has what follows the arrivals follow it. Where
/// memory is refused nothing changes.
fn enter<A: Allocator + Copy, F: Follows<A>>(
    line: &mut Line<A>,
    arrivals: &Arrivals<A>,
    follower: &mut F,
    op: &Op<A>,
) -> Result<(), NoMemory>
    requires { IsFiled arrivals.now.items line.old }
    ensures ok { OnOk result ((line.new ≡ with_place arrivals.now.items line.old op.now)
        × (follower.new ≡ F.after follower.old op.now)) }
    ensures err { OnErr result ((line.new ≡ line.old) × (follower.new ≡ follower.old)) }
{
    let below = Below { arrivals, op };
    line.places.insert(&below, arrivals.len())?;
    if follower.follow(op).is_err() {
        let _place = line.places.remove(&below);
        return Err(NoMemory);
    }
    Ok(())
}
