//! Prints the snapshot of two together.

ghost use Rattle.commands.specs.Ending.{Ends};

use command_line::{Command, MergeCommand};
use console::{Console, Refusal, read_record};
use replica_core::{Gathering, operations_arrive_as_a_set};
use std::alloc::Global;
use std::mem::ManuallyDrop;

/// Prints the snapshot of two together: of the operations of either, each once. The second is read into the journal of
/// the first, so that one journal is held, and no state. Refusals: those of the first snapshot, then of the second;
/// `Memory`, memory was refused once both were read; `Output`. It costs what reading both costs, and what writing
/// costs.
pub fn merge<'n, C: Console>(
    alloc: Global,
    command: &MergeCommand<'n>,
    console: &mut C,
) -> Result<(), Refusal<'n>>
    ensures { Ends (Command.Merge command.now) (C.state console.old) (C.state console.new) result }
{
    operations_arrive_as_a_set();
    let gathering = read_record(Gathering::new(alloc), command.first, console)?;
    let both = read_record(gathering, command.second, console)?;
    let printed = console.print_snapshot(alloc, &both);
    // The program ends now, and the record's memory goes with it.
    let _kept = ManuallyDrop::new(both);
    printed
}
