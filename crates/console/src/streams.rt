//! The input, the output and the files of the program, as one value.

ghost use Rattle.std.specs.Prelude.{◌≡◌, ◌⊎◌, Some, [], if◌then◌else◌, IfOk, IfErr};
ghost use Rattle.byte_ends.specs.Lines.{lines_of};
ghost use Rattle.replica_core.specs.InOrder.{IsInOrderOf};
ghost use Rattle.replica_core.specs.Journal.{all_arrived};
ghost use Rattle.report_text.specs.Report.{report_of};
ghost use Rattle.snapshot_text.specs.Snapshot.{SaysOperations, snapshot_text};
ghost use Rattle.review_ops.specs.Operation.{Operation};
ghost use Rattle.std.specs.Prelude.{List};
ghost use Rattle.console.specs.Console.{ConsoleState, IsRead, IsUnread, is_input, record_at};
ghost use Rattle.console.specs.Inputs.{IsHad, IsRefused, input, snapshot_file};
ghost use Rattle.console.specs.Printing.{Prints, PrintsSnapshot};
ghost use Rattle.console.specs.Pulls.{BringsRecord, IsPullFault};
ghost use Rattle.state_core.specs.State.{state_of};

use super::files::Named;
use super::pulls::PullFault;
use super::refusals::Refusal;
use byte_ends::{BytesFault, Drain, Source, read_all, write_all};
use lattice_core::NoMemory;
use ready_core::Verdicts;
use replica_core::{Gathering, Replica};
use report_text::{WriteReportFault, write_report};
use site_address::Address;
use snapshot_text::{SnapFault, WriteSnapFault, gather_onto, write_gathered};
use state_core::State;
use std::alloc::Global;

/// What a command reads from and prints to.
pub trait Console {
    /// What is known of its ends.
    ghost state: { Self → ConsoleState };

    /// All bytes of the file of a name, or for `-` those that the input has left, which are at most `limit`: of a
    /// script, a gate file or a message file. A second `-` has none. Refusals: 6 `TooLong`, there are more; 7
    /// `ReadFault`, the input failed, or the file can't be opened or read; 8 `NoMemory`. It costs O(bytes).
    fn read(&mut self, alloc: Global, name: &str, limit: usize) -> Result<Vec<u8>, BytesFault>
        ensures read { IfOk result (λ bytes. IsRead name.now limit (state self.old) (state self.new) bytes.items) }
        ensures unread { IfErr result (IsUnread name.now limit (state self.old) (state self.new)) };

    /// The gathering to which the operations of the snapshot of a name came, after those that it has: of the file of
    /// the name, or for `-` of what the input has left. A second `-` has nothing, and so no header. The text is read in
    /// blocks. The refusals and costs are those of `snapshot_text::gather_onto`; 7 `ReadFault` also where the file
    /// can't be opened.
    fn read_snapshot(&mut self, gathering: Gathering, name: &str) -> Result<Gathering, SnapFault>
        ensures had { IfOk result (λ both. (ops : List Operation) × (both ≡ all_arrived gathering ops)
            × IsHad (input snapshot_file name.now) (λ text. SaysOperations (lines_of text) ops)
            (state self.old) (state self.new)) }
        ensures refused { IfErr result (λ fault. IsRefused (input snapshot_file name.now)
            (state self.old) (state self.new) (Refusal.Snapshot fault name.entry)) };

    /// The gathering to which the operations of the record of the running site at an address of this machine came,
    /// after those that it has. Refusals: those of `Named::pull`.
    fn pull(&mut self, gathering: Gathering, address: Address<'_>) -> Result<Gathering, PullFault>
        ensures pulled { IfOk result (λ both. BringsRecord (record_at (state self.old).sites address.entry) gathering both) }
        ensures unpulled { IfErr result IsPullFault }
        ensures kept { state self.new ≡ state self.old };

    /// The state of what was gathered, as `Gathering::into_state` gives it.
    fn state_from(&self, gathering: Gathering) -> Result<State, NoMemory>
        ensures { IfOk result (λ state. state ≡ state_of gathering) };

    /// The replica of what was gathered, as `Gathering::joined` gives it.
    fn replica_from(&self, gathering: Gathering) -> Result<Replica, NoMemory>
        ensures { IfOk result (λ replica. replica ≡ gathering) };

    /// Prints a text. Refusal: `Output`, the output failed.
    fn print(&mut self, text: &[u8]) -> Result<(), Refusal<'static>>
        ensures { Prints text.now (state self.old) (state self.new) result };

    /// Prints a report, as `write_report` writes it. Refusal: `Output`, the output failed.
    fn print_report(&mut self, verdicts: &Verdicts) -> Result<(), Refusal<'static>>
        ensures { Prints (report_of verdicts.now) (state self.old) (state self.new) result };

    /// Prints the snapshot of what was gathered, as `write_gathered` writes it. Refusals: `Output`, the output failed;
    /// `Memory`, nothing was printed.
    fn print_snapshot(
        &mut self,
        alloc: Global,
        gathering: &Gathering,
    ) -> Result<(), Refusal<'static>>
        ensures { PrintsSnapshot gathering.now (state self.old) (state self.new) result };
}

/// A console over a source, a drain and files. The input is spent once it was read.
#[derive(Drop)]
pub struct Streams<'i, 'o, 'f, I: Source, O: Drain, N: Named> {
    pub input: &'i mut I,
    pub output: &'o mut O,
    pub files: &'f mut N,
    pub is_spent: bool,
}

/// Whether a name is that of the input, `-`.
pub fn is_input(name: &str) -> bool
    ensures { result ≡ is_input name.now }
{
    name == "-"
}

impl<'i, 'o, 'f, I: Source, O: Drain, N: Named> Console for Streams<'i, 'o, 'f, I, O, N> {
    ghost state = { λ c. record {
      left = if c.is_spent then Some [] else I.left c.input.now;
      files = N.files c.files.now;
      sites = N.sites c.files.now;
      printed = O.taken c.output.now;
      input_failed = I.failed c.input.now;
      files_failed = N.failed c.files.now;
      output_failed = O.failed c.output.now;
      ends = (c.input.ghost_name, c.output.ghost_name, c.files.ghost_name);
    } };

    fn read(&mut self, alloc: Global, name: &str, limit: usize) -> Result<Vec<u8>, BytesFault> {
        if !is_input(name) {
            return self.files.read(name, limit);
        }
        if self.is_spent {
            return Ok(Vec::new(alloc));
        }
        self.is_spent = true;
        read_all(alloc, self.input, limit)
    }

    fn read_snapshot(&mut self, gathering: Gathering, name: &str) -> Result<Gathering, SnapFault> {
        if !is_input(name) {
            return self.files.read_snapshot(gathering, name);
        }
        if self.is_spent {
            return Err(SnapFault::BadHeader);
        }
        self.is_spent = true;
        gather_onto(gathering, self.input)
    }

    fn pull(&mut self, gathering: Gathering, address: Address<'_>) -> Result<Gathering, PullFault> {
        self.files.pull(gathering, address)
    }

    fn state_from(&self, gathering: Gathering) -> Result<State, NoMemory> {
        self.files.state_from(gathering)
    }

    fn replica_from(&self, gathering: Gathering) -> Result<Replica, NoMemory> {
        self.files.replica_from(gathering)
    }

    fn print(&mut self, text: &[u8]) -> Result<(), Refusal<'static>> {
        match write_all(self.output, text) {
            Ok(()) => Ok(()),
            Err(_) => Err(Refusal::Output),
        }
    }

    fn print_report(&mut self, verdicts: &Verdicts) -> Result<(), Refusal<'static>> {
        match write_report(verdicts, self.output) {
            Ok(()) => Ok(()),
            Err(WriteReportFault::WriteFault) => Err(Refusal::Output),
        }
    }

    fn print_snapshot(
        &mut self,
        alloc: Global,
        gathering: &Gathering,
    ) -> Result<(), Refusal<'static>> {
        match write_gathered(alloc, gathering, self.output) {
            Ok(()) => Ok(()),
            Err(WriteSnapFault::WriteFault) => Err(Refusal::Output),
            Err(WriteSnapFault::NoMemory) => Err(Refusal::Memory),
        }
    }
}
