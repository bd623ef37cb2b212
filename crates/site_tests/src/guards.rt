//! Which answers of a peer a site accepts, worked out by hand: all operations of an answer, or none.

use super::asserts::assert_found;
use super::talks::{MEMORY, MERGE_5, port_of, replica_of};
use byte_ends::Ends;
use gossip_line::{LineFault, Pulled, pull_run};
use op_text::read_op;
use pull_guard::{Bar, Guard, latest_time};
use replica_core::Front;
use review_ops::Op;
use site_port::{Guarded, OwnPort, Sink, SinkFault};
use std::alloc::Global;

/// Operations of site 2, whose times are 2^40 and one above, above a record whose greatest time is 1: as far as may be,
/// and one further.
const AT_THE_LIMIT: &str =
    "{\"change\":6,\"op\":\"merged\",\"seq\":1,\"site\":2,\"start\":1,\"time\":1099511627777}";

const ABOVE_THE_LIMIT: &str =
    "{\"change\":6,\"op\":\"merged\",\"seq\":1,\"site\":2,\"start\":1,\"time\":1099511627778}";

/// The same under the last time that there is.
const LAST_TIME: &str =
    "{\"change\":6,\"op\":\"merged\",\"seq\":1,\"site\":2,\"start\":1,\"time\":18446744073709551615}";

/// Operations of site 2 under the greatest start that a site may have, and under the one above.
const LAST_START: &str =
    "{\"change\":6,\"op\":\"merged\",\"seq\":1,\"site\":2,\"start\":4294967294,\"time\":2}";

const NO_START: &str =
    "{\"change\":6,\"op\":\"merged\",\"seq\":1,\"site\":2,\"start\":4294967295,\"time\":2}";

/// An operation of site 3.
const OF_3: &str = "{\"change\":6,\"op\":\"merged\",\"seq\":1,\"site\":3,\"start\":1,\"time\":2}";

/// Two operations of site 2, and one of site 1 itself, that are allowed.
const GOOD: &str = "{\"change\":7,\"op\":\"merged\",\"seq\":2,\"site\":2,\"start\":1,\"time\":3}";

const FINE: &str = "{\"change\":8,\"op\":\"merged\",\"seq\":3,\"site\":2,\"start\":1,\"time\":4}";

const OWN: &str = "{\"change\":9,\"op\":\"merged\",\"seq\":7,\"site\":1,\"start\":1,\"time\":5}";

/// The guard of site 1 with these sites listed.
fn guard_of(alloc: Global, sites: &[u16]) -> Option<Guard> {
    let sites = sites.to_vec(alloc).ok()?;
    Some(Guard { own: 1, sites })
}

/// Adds an operation to a peer's answer.
fn push_op(answer: &mut String, op: &str) -> Option<()> {
    answer.push_str("op ").ok()?;
    answer.push_str(op).ok()?;
    answer.push('\n').ok()
}

/// The answer of a peer that hands over these operations.
fn answer_with(alloc: Global, ops: &[&str]) -> Option<String> {
    let mut answer = String::from_str(alloc, "hello 2\n").ok()?;
    for op in ops {
        push_op(&mut answer, op)?;
    }
    answer.push_str("done\n").ok()?;
    Some(answer)
}

/// How a pull ends, and how many operations the site has then.
type Pull = (Result<Pulled, LineFault>, usize);

/// The pull by a guarded port of a peer that answers so.
fn pulled_by(alloc: Global, guard: &Guard, port: OwnPort, answer: &[u8]) -> Pull {
    let mut sink = Guarded::new(guard, port);
    let mut drain = Ends::new(Vec::new(alloc));
    let ended = pull_run(alloc, &mut Ends::new(answer), &mut drain, &mut sink);
    (ended, sink.sink().replica().len())
}

/// How a pull of site 1, which has one operation, ends where the peer hands over these, and how many it has then.
fn pulled(alloc: Global, sites: &[u16], ops: &[&str]) -> Option<Pull> {
    let guard = guard_of(alloc, sites)?;
    let answer = answer_with(alloc, ops)?;
    let port = port_of(alloc, &[MERGE_5])?;
    Some(pulled_by(alloc, &guard, port, answer.as_bytes()))
}

/// A pull that handed over so many operations, all of which the site has then beside its own one.
fn took(count: usize) -> Pull {
    let pulled = Pulled {
        rounds: 1,
        taken: count as u64,
        more: false,
    };
    (Ok(pulled), count.saturating_add(1))
}

/// A pull that was refused, and left the site its one operation.
fn refused(fault: LineFault) -> Pull {
    (Err(fault), 1)
}

#[test]
fn each_rule_lets_in_at_its_limit_and_nothing_above(rt: HostRuntime) {
    let alloc = rt.alloc();
    let cases: [(&[u16], &str, Pull); 11] = [
        (&[], AT_THE_LIMIT, took(1)),
        (&[], ABOVE_THE_LIMIT, refused(LineFault::FarAhead)),
        (&[], LAST_TIME, refused(LineFault::FarAhead)),
        (&[], LAST_START, took(1)),
        (&[], NO_START, refused(LineFault::FarAhead)),
        (&[], OF_3, took(1)),
        (&[2, 3], OF_3, took(1)),
        (&[2], OF_3, refused(LineFault::NotListed)),
        (&[2], OWN, took(1)),
        (&[3], LAST_TIME, refused(LineFault::NotListed)),
        (&[2], GOOD, took(1)),
    ];
    for (sites, op, wanted) in cases {
        assert_found(&rt, (op, pulled(alloc, sites, &[op])), (op, Some(wanted)));
    }
}

/// A bad operation, and the fault that it is refused for.
const BAD: [(&str, LineFault); 3] = [
    (ABOVE_THE_LIMIT, LineFault::FarAhead),
    (NO_START, LineFault::FarAhead),
    (OF_3, LineFault::NotListed),
];

/// How a pull ends of an answer with a bad operation among good ones, where it stands first, second and last.
fn pulled_with(alloc: Global, bad: &str) -> [Option<Pull>; 3] {
    [
        pulled(alloc, &[2], &[bad, GOOD, FINE]),
        pulled(alloc, &[2], &[GOOD, bad, FINE]),
        pulled(alloc, &[2], &[GOOD, FINE, bad]),
    ]
}

// One bad operation among good ones, wherever it stands.
#[test]
fn an_answer_with_a_bad_operation_changes_nothing(rt: HostRuntime) {
    let alloc = rt.alloc();
    assert_found(&rt, pulled(alloc, &[2], &[GOOD, FINE, OWN]), Some(took(3)));
    for (bad, fault) in BAD {
        let wanted = Some(refused(fault));
        assert_found(&rt, pulled_with(alloc, bad), [wanted, wanted, wanted]);
    }
    let unlisted = pulled(alloc, &[2], &[GOOD, OF_3, NO_START]);
    assert_found(&rt, unlisted, Some(refused(LineFault::NotListed)));
}

/// The operations of these texts.
fn ops_of(alloc: Global, texts: &[&str]) -> Option<Vec<Op>> {
    let mut ops = Vec::new(alloc);
    for text in texts {
        let op = read_op(alloc, text.as_bytes()).ok()?;
        ops.push(op).ok()?;
    }
    Some(ops)
}

/// What a guard that lists site 2 says of these operations, above this time.
fn judged(alloc: Global, latest: u64, ops: &[&str]) -> Option<Result<(), Bar>> {
    let guard = guard_of(alloc, &[2])?;
    let read = ops_of(alloc, ops)?;
    Some(guard.admit(latest, read.as_slice()))
}

#[test]
fn times_are_judged_above_the_records_own(rt: HostRuntime) {
    let alloc = rt.alloc();
    assert_found(&rt, judged(alloc, 1, &[AT_THE_LIMIT]), Some(Ok(())));
    assert_found(
        &rt,
        judged(alloc, 0, &[AT_THE_LIMIT]),
        Some(Err(Bar::FarAhead)),
    );
    assert_found(
        &rt,
        judged(alloc, u64::MAX, &[LAST_TIME, GOOD]),
        Some(Ok(())),
    );
    assert_found(&rt, judged(alloc, 1, &[]), Some(Ok(())));
    let names = [Bar::NotListed, Bar::FarAhead].map(|bar| (bar.number(), bar.name()));
    assert_found(&rt, names, [(11, "NotListed"), (12, "FarAhead")]);
}

/// The greatest time of these operations.
fn latest_of(alloc: Global, ops: &[&[u8]]) -> Option<u64> {
    let replica = replica_of(alloc, ops)?;
    Some(latest_time(&replica))
}

#[test]
fn the_greatest_time_is_that_of_all_operations(rt: HostRuntime) {
    let alloc = rt.alloc();
    assert_found(&rt, latest_of(alloc, &[]), Some(0));
    assert_found(&rt, latest_of(alloc, &[GOOD.as_bytes(), MERGE_5]), Some(3));
    let at_the_end = latest_of(alloc, &[MERGE_5, LAST_TIME.as_bytes(), GOOD.as_bytes()]);
    assert_found(&rt, at_the_end, Some(u64::MAX));
}

/// A sink that says no time, and counts what it is handed.
#[derive(Drop)]
struct Timeless {
    handed: usize,
}

impl Sink for Timeless {
    ghost sinks = { λ _ _ _ _. Unit {0} };

    fn front(&mut self) -> Result<Front, SinkFault> {
        Err(SinkFault::NoMemory)
    }

    fn latest_time(&mut self) -> Result<u64, SinkFault> {
        Err(SinkFault::Closed)
    }

    fn take_all(&mut self, ops: Vec<Op>) -> Result<(), SinkFault> {
        self.handed = ops.len();
        Ok(())
    }
}

/// What a sink that says no time answers behind a guard to operations that are handed over, to what it has, and to its
/// greatest time; and how many operations it was handed.
fn answered(
    guard: &Guard,
    ops: Vec<Op>,
) -> (
    Result<(), SinkFault>,
    Option<SinkFault>,
    Result<u64, SinkFault>,
    usize,
) {
    let mut sink = Guarded::new(guard, Timeless { handed: 0 });
    let taken = sink.take_all(ops);
    let front = sink.front().err();
    let latest = sink.latest_time();
    (taken, front, latest, sink.sink().handed)
}

#[test]
fn a_sink_that_says_no_time_is_handed_nothing(rt: HostRuntime) {
    let guard = guard_of(rt.alloc(), &[]).expect(&rt, MEMORY);
    let ops = ops_of(rt.alloc(), &[GOOD]).expect(&rt, MEMORY);
    let closed = Err(SinkFault::Closed);
    let wanted = (closed, Some(SinkFault::NoMemory), Err(SinkFault::Closed), 0);
    assert_found(&rt, answered(&guard, ops), wanted);
}
