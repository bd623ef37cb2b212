//! Pulls the record of the site at an address.

ghost use Rattle.std.specs.Prelude.{IfErr, IfOk};
ghost use Rattle.console.specs.Pulls.{IsPullFault};
ghost use Rattle.record_pull.specs.Pulling.{Comes};

use super::pull::pull_record;
use byte_ends::Ends;
use console::PullFault;
use replica_core::Replica;
use site_address::Address;
use site_net::{Patience, PatientReader, PatientWriter, Stop, connected};
use std::alloc::Global;
use std::net::{Net, TcpStream};
use std::time::{Clock, Duration};

/// How many milliseconds a site has for each line, and to take in what it is sent.
const PATIENCE_MS: u64 = 10_000;

/// The record of the site at an address of this machine. Refusals: those of `pull_record`; 8 `Unreachable`, no
/// connection is accepted there within 10 seconds. A site that is silent for 10 seconds where a line is awaited is 3
/// `ReadFault`. It costs what `pull_record` does.
pub fn pull_from<R: Net<Stream = TcpStream> + Clock>(
    rt: &R,
    alloc: Global,
    address: Address<'_>,
) -> Result<Replica, PullFault>
    ensures came { IfOk result Comes }
    ensures fault { IfErr result IsPullFault }
{
    let limit = Duration::from_millis(PATIENCE_MS);
    let patience = Patience {
        limit,
        idle: Some(limit),
    };
    let stop = Stop::new();
    let Ok(stream) = connected(rt, address, patience) else {
        return Err(PullFault::Unreachable);
    };
    let Ok(reader) = PatientReader::new(rt, &stream, &stop, patience) else {
        return Err(PullFault::Unreachable);
    };
    let Ok(writer) = PatientWriter::new(rt, &stream, patience) else {
        return Err(PullFault::Unreachable);
    };
    pull_record(alloc, &mut Ends::new(reader), &mut Ends::new(writer))
}
