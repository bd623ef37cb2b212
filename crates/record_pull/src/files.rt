//! The files of the system, and the sites that run on this machine.

ghost use Rattle.std.specs.Prelude.{◌≡◌, []};
ghost use Rattle.byte_ends.specs.Failures.{OneFailed};

use super::connection::pull_from;
use super::joining::joined;
use byte_ends::{BytesFault, Ends, read_all};
use console::{Named, PullFault};
use lattice_core::NoMemory;
use line_batches::{Batches, OneByOne};
use replica_core::{Gathering, Replica};
use site_address::Address;
use snapshot_text::{SnapFault, gather_by};
use state_core::State;
use std::alloc::Global;
use std::fs;
use std::net::{Net, TcpStream};
use std::rt::Files;
use std::time::Clock;

/// The files of the system, and the sites that run on this machine. No contract can say what they contain.
#[derive(Drop)]
pub struct SystemFiles<R: Drop, B: Drop = OneByOne> {
    rt: R,
    batches: B,
    failures: u64,
}

impl<R: Drop> SystemFiles<R> {
    /// The files that `rt` opens and the sites that it connects to, with no failure counted. The lines of snapshots are
    /// read one by one, and effects joined one after the other.
    pub fn new(rt: R) -> SystemFiles<R>
        ensures { result.failures ≡ 0 }
    {
        SystemFiles::read_by(rt, OneByOne)
    }
}

impl<R: Drop, B: Batches + Drop> SystemFiles<R, B> {
    /// The same, but the lines of snapshots are read in batches, which join the effects, too.
    pub fn read_by(rt: R, batches: B) -> SystemFiles<R, B>
        ensures { result.failures ≡ 0 }
    {
        SystemFiles {
            rt,
            batches,
            failures: 0,
        }
    }

    /// Counts a file that can't be opened or read.
    fn count_failure(&mut self)
        ensures { OneFailed self.old.failures self.new.failures }
    {
        self.failures = self.failures.saturating_add(1);
    }
}

impl<R, B> Named for SystemFiles<R, B>
where
    R: Files + Net<Stream = TcpStream> + Clock + AllocGlobal + Drop,
    B: Batches + Drop,
{
    ghost files = { λ files. [] };

    ghost sites = { λ files. [] };

    ghost failed = { λ files. files.failures };

    fn read(&mut self, name: &str, limit: usize) -> Result<Vec<u8>, BytesFault> {
        let alloc: Global = self.rt.alloc();
        let answer = match fs::open(&self.rt, name) {
            Ok(file) => read_all(alloc, &mut Ends::new(file), limit),
            Err(_) => Err(BytesFault::ReadFault),
        };
        if matches!(&answer, Err(BytesFault::ReadFault)) {
            self.count_failure();
        }
        answer
    }

    fn read_snapshot(&mut self, gathering: Gathering, name: &str) -> Result<Gathering, SnapFault> {
        let answer = match fs::open(&self.rt, name) {
            Ok(file) => gather_by(&self.batches, gathering, &mut Ends::new(file)),
            Err(_) => Err(SnapFault::ReadFault),
        };
        if matches!(&answer, Err(SnapFault::ReadFault)) {
            self.count_failure();
        }
        answer
    }

    fn pull(&mut self, gathering: Gathering, address: Address<'_>) -> Result<Gathering, PullFault> {
        let pulled = pull_from(&self.rt, self.rt.alloc(), address)?;
        joined(gathering, pulled)
    }

    fn state_from(&self, gathering: Gathering) -> Result<State, NoMemory> {
        gathering.into_state_by(&self.batches)
    }

    fn replica_from(&self, gathering: Gathering) -> Result<Replica, NoMemory> {
        gathering.joined_by(&self.batches)
    }

    fn failures(&self) -> u64 {
        self.failures
    }
}
