//! Files and running sites for tests.

ghost use Rattle.std.specs.Prelude.{[], ◌∷◌, decimal};

use byte_ends::{Broken, BytesFault, Ends};
use console::{Named, PullFault};
use gossip_line::LineFault;
use replica_core::Gathering;
use site_address::Address;
use snapshot_text::{SnapFault, gather_onto};
use std::alloc::Global;

/// The only file that is there.
#[derive(Drop)]
pub struct OneFile<'a> {
    pub name: &'a str,
    pub text: &'a [u8],
    pub alloc: Global,
    pub failures: u64,
}

impl Named for OneFile<'_> {
    ghost files = { λ files. [] };

    ghost sites = { λ files. [] };

    ghost failed = { λ files. files.failures };

    fn read(&mut self, name: &str, limit: usize) -> Result<Vec<u8>, BytesFault> {
        if name != self.name {
            self.failures = self.failures.saturating_add(1);
            return Err(BytesFault::ReadFault);
        }
        if self.text.len() > limit {
            return Err(BytesFault::TooLong);
        }
        match self.text.to_vec(self.alloc) {
            Ok(bytes) => Ok(bytes),
            Err(_) => Err(BytesFault::NoMemory),
        }
    }

    fn read_snapshot(&mut self, gathering: Gathering, name: &str) -> Result<Gathering, SnapFault> {
        let answer = if name == self.name {
            gather_onto(gathering, &mut Ends::new(self.text))
        } else {
            Err(SnapFault::ReadFault)
        };
        if matches!(&answer, Err(SnapFault::ReadFault)) {
            self.failures = self.failures.saturating_add(1);
        }
        answer
    }

    fn pull(
        &mut self,
        _gathering: Gathering,
        _address: Address<'_>,
    ) -> Result<Gathering, PullFault> {
        Err(PullFault::Unreachable)
    }

    fn failures(&self) -> u64 {
        self.failures
    }
}

/// The file of a snapshot under any name. A read of it fails before this byte.
#[derive(Drop)]
pub struct BrokenFile<'a> {
    pub text: &'a [u8],
    pub byte: u64,
    pub failures: u64,
}

impl Named for BrokenFile<'_> {
    ghost files = { λ files. [] };

    ghost sites = { λ files. [] };

    ghost failed = { λ files. files.failures };

    fn read(&mut self, _name: &str, _limit: usize) -> Result<Vec<u8>, BytesFault> {
        self.failures = self.failures.saturating_add(1);
        Err(BytesFault::ReadFault)
    }

    fn read_snapshot(&mut self, gathering: Gathering, _name: &str) -> Result<Gathering, SnapFault> {
        let mut source = Broken::before_byte(Ends::new(self.text), self.byte);
        let answer = gather_onto(gathering, &mut source);
        if matches!(&answer, Err(SnapFault::ReadFault)) {
            self.failures = self.failures.saturating_add(1);
        }
        answer
    }

    fn pull(
        &mut self,
        _gathering: Gathering,
        _address: Address<'_>,
    ) -> Result<Gathering, PullFault> {
        Err(PullFault::Unreachable)
    }

    fn failures(&self) -> u64 {
        self.failures
    }
}

/// A running site: its port of this machine, and its record as a snapshot's text. No file is there, also none of the
/// site's name.
#[derive(Drop)]
pub struct OneSite<'a> {
    pub port: u16,
    pub record: &'a [u8],
    pub failures: u64,
}

impl Named for OneSite<'_> {
    ghost files = { λ site. [] };

    ghost sites = { λ site. (decimal site.port, site.record.now) ∷ [] };

    ghost failed = { λ site. site.failures };

    fn read(&mut self, _name: &str, _limit: usize) -> Result<Vec<u8>, BytesFault> {
        self.failures = self.failures.saturating_add(1);
        Err(BytesFault::ReadFault)
    }

    fn read_snapshot(
        &mut self,
        _gathering: Gathering,
        _name: &str,
    ) -> Result<Gathering, SnapFault> {
        self.failures = self.failures.saturating_add(1);
        Err(SnapFault::ReadFault)
    }

    fn pull(&mut self, gathering: Gathering, address: Address<'_>) -> Result<Gathering, PullFault> {
        if address != Address::Port(self.port) {
            return Err(PullFault::Unreachable);
        }
        match gather_onto(gathering, &mut Ends::new(self.record)) {
            Ok(both) => Ok(both),
            Err(_) => Err(PullFault::Failed(LineFault::BadAnswer)),
        }
    }

    fn failures(&self) -> u64 {
        self.failures
    }
}
