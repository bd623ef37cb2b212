//! Pulls the record of a site over a connection.

ghost use Rattle.std.specs.Prelude.{◌≡◌, [], IfErr, IfOk, List};
ghost use Rattle.console.specs.Pulls.{IsPullFault};
ghost use Rattle.gossip_line.specs.Session.{Moment};
ghost use Rattle.record_pull.specs.Pulling.{Comes, Pulls, Unpulls};
ghost use Rattle.review_ops.specs.Operation.{Operation};

use super::record::Record;
use byte_ends::{Drain, Source};
use console::PullFault;
use gossip_line::pull_rounds;
use line_reader::LINE_LIMIT;
use replica_core::Replica;
use std::alloc::Global;

/// How many answers a record may have: 16,777,216 operations, of 256 an answer.
const ROUNDS: u32 = 65_536;

/// The record of the site at the other side of a connection, answer by answer, until the site says that nothing is
/// left. Refusals: 1 to 6, those of `gossip_line::pull_run`; 10 `NoEnd`, the second answer to the same front said that
/// more is left, since 256 operations or more lie past gaps of the site's record, or the 65,536th answer did. It costs
/// what `Replica::take` costs for each operation, and O(n) for n bytes that are read and written.
pub fn pull_record<S: Source, D: Drain>(
    alloc: Global,
    source: &mut S,
    drain: &mut D,
) -> Result<Replica, PullFault>
    ensures pulled { IfOk result (λ replica. Pulls
        (record { port = []; left = S.left source.old; taken = D.taken drain.old; unread = S.failed source.old; unwritten = D.failed drain.old })
        (record { port = replica; left = S.left source.new; taken = D.taken drain.new; unread = S.failed source.new; unwritten = D.failed drain.new })) }
    ensures came { IfOk result Comes }
    ensures unpulled { IfErr result (λ fault. (journal : List Operation) × Unpulls
        (record { port = []; left = S.left source.old; taken = D.taken drain.old; unread = S.failed source.old; unwritten = D.failed drain.old })
        (record { port = journal; left = S.left source.new; taken = D.taken drain.new; unread = S.failed source.new; unwritten = D.failed drain.new })
        fault) }
    ensures fault { IfErr result IsPullFault }
{
    let mut record = Record::new(Replica::new(alloc));
    match pull_rounds(alloc, LINE_LIMIT, ROUNDS, source, drain, &mut record) {
        Ok(pulled) => {
            if pulled.more {
                return Err(PullFault::NoEnd);
            }
            Ok(record.into_replica())
        }
        Err(fault) => Err(PullFault::Failed(fault)),
    }
}
