//! A journal by its name.

ghost use Rattle.std.specs.Prelude.{◌≡◌, List, ℕ, Option, true};
ghost use Rattle.console.specs.Console.{is_input};
ghost use Rattle.console.specs.Showing.{error_output};
ghost use Rattle.recover_command.specs.Recovering.{RecoversAs};

use super::recovering::{recover_to, report};
use byte_ends::{Drain, Ends, Source};
use site_journal::{JournalFault, LeftOut, RecoverFault};
use std::alloc::Global;
use std::fs;
use std::rt::Files;

/// The name of the input.
const INPUT: &str = "-";

/// Recovers the journal of a name, or for `-` what the input has, as `recover_to` does. A file that can't be opened is
/// a journal that can't be read: 4 `Failed`. It is neither locked nor changed.
pub fn recover_named<R: Files, I: Source + Drop, O: Drain, E: Drain>(
    rt: &R,
    alloc: Global,
    name: &str,
    input: I,
    left_out: &LeftOut,
    output: &mut O,
    errors: &mut E,
) -> u8
    ensures { (left : Option (List ℕ)) × (is_input name.now ≡ true → left ≡ I.left input)
        × RecoversAs left_out.now left (O.taken output.old) (O.taken output.new) (O.failed output.old) (O.failed output.new)
        (error_output (E.taken errors.old) (E.failed errors.old))
        (error_output (E.taken errors.new) (E.failed errors.new)) result }
{
    if name == INPUT {
        return recover_to(alloc, input, left_out, output, errors);
    }
    match fs::open(rt, name) {
        Ok(file) => recover_to(alloc, Ends::new(file), left_out, output, errors),
        Err(_) => report(
            alloc,
            &Err(RecoverFault::Journal(JournalFault::Failed)),
            errors,
        ),
    }
}
