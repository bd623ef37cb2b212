//! The files and the running sites that a command names.

ghost use Rattle.std.specs.Prelude.{◌≡◌, ◌<◌, ◌≤◌, ℕ, List, length, vec_len, IfErr, IfOk, IfSome, IsErrOf};
ghost use Rattle.std.specs.Prelude.{MatchResult};
ghost use Rattle.byte_ends.specs.ReadAll.{CountsRead};
ghost use Rattle.snapshot_text.specs.Snapshot.{Brings, CountsSnapFault, IsRefusedBy};
ghost use Rattle.console.specs.Console.{Contents, Records, file_of, record_at};
ghost use Rattle.console.specs.Pulls.{BringsRecord, IsPullFault};
ghost use Rattle.state_core.specs.State.{state_of};

use super::pulls::PullFault;
use byte_ends::BytesFault;
use lattice_core::NoMemory;
use replica_core::{Gathering, Replica};
use site_address::Address;
use snapshot_text::SnapFault;
use state_core::State;

/// Files by their names, and running sites by their addresses.
pub trait Named {
    /// The files whose contents are known. No reading changes them.
    ghost files: { Self → Contents };

    /// The running sites whose records are known. No reading changes them.
    ghost sites: { Self → Records };

    /// How many calls answered `ReadFault`. The count stays at `u64::MAX`.
    ghost failed: { Self → ℕ };

    /// All bytes of the file of a name, which are at most `limit`: of a script, a gate file or a message file.
    /// Refusals: 6 `TooLong`, there are more; 7 `ReadFault`, it can't be opened or read; 8 `NoMemory`. It costs
    /// O(bytes).
    fn read(&mut self, name: &str, limit: usize) -> Result<Vec<u8>, BytesFault>
        ensures ok { IfOk result
            (λ bytes. IfSome (file_of (files self.old) name.now) (λ contents. bytes.items ≡ contents)) }
        ensures within { IfOk result (λ bytes. vec_len bytes ≤ limit) }
        ensures too_long { IsErrOf result BytesFault.TooLong
            → IfSome (file_of (files self.old) name.now) (λ contents. limit < length contents) }
        ensures kept { files self.new ≡ files self.old }
        ensures sites { sites self.new ≡ sites self.old }
        ensures counted { CountsRead (failed self.old) (failed self.new) result };

    /// The gathering to which the operations of the snapshot in the file of a name came, after those that it has. The
    /// text is read in blocks. The refusals and costs are those of `snapshot_text::gather_onto`; 7 `ReadFault` also
    /// where the file can't be opened.
    fn read_snapshot(&mut self, gathering: Gathering, name: &str) -> Result<Gathering, SnapFault>
        ensures ok { IfOk result (λ both. Brings (file_of (files self.old) name.now) gathering both) }
        ensures err { IfErr result (λ fault. IsRefusedBy (file_of (files self.old) name.now) fault) }
        ensures kept { files self.new ≡ files self.old }
        ensures sites { sites self.new ≡ sites self.old }
        ensures counted { MatchResult result
            (λ _. failed self.new ≡ failed self.old)
            (CountsSnapFault (failed self.old) (failed self.new)) };

    /// The gathering to which the operations of the record of the running site at an address of this machine came,
    /// after those that it has. Refusals: those of a pull, but for `Closed`, `NotListed` and `FarAhead`; 8
    /// `Unreachable`; 10 `NoEnd`, the site says again and again that more is left. It is no call of a file.
    fn pull(&mut self, gathering: Gathering, address: Address<'_>) -> Result<Gathering, PullFault>
        ensures ok { IfOk result (λ both. BringsRecord (record_at (sites self.old) address.entry) gathering both) }
        ensures err { IfErr result IsPullFault }
        ensures kept { files self.new ≡ files self.old }
        ensures sites { sites self.new ≡ sites self.old }
        ensures counted { failed self.new ≡ failed self.old };

    /// The state of what was gathered, as `Gathering::into_state` gives it.
    fn state_from(&self, gathering: Gathering) -> Result<State, NoMemory>
        ensures { IfOk result (λ state. state ≡ state_of gathering) }
    {
        gathering.into_state()
    }

    /// The replica of what was gathered, as `Gathering::joined` gives it.
    fn replica_from(&self, gathering: Gathering) -> Result<Replica, NoMemory>
        ensures { IfOk result (λ replica. replica ≡ gathering) }
    {
        gathering.joined()
    }

    /// How many calls answered `ReadFault`. The count stays at `u64::MAX`.
    fn failures(&self) -> u64
        ensures { result ≡ failed self.now };
}
