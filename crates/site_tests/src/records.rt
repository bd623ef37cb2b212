//! Records that are pulled over texts, worked out by hand.

use super::asserts::assert_found;
use super::talks::{MEMORY, push_merge};
use byte_ends::{Broken, Ends, Source};
use console::PullFault;
use gossip_line::LineFault;
use op_text::read_op;
use record_pull::pull_record;
use replica_core::Replica;
use std::alloc::Global;
use std::process::Abort;

/// What a site says of two operations, in two answers, of which the second has the first operation again.
const TWO: &str = "hello 2
op {\"change\":5,\"op\":\"merged\",\"seq\":1,\"site\":1,\"start\":1,\"time\":1}
more
op {\"change\":5,\"op\":\"merged\",\"seq\":1,\"site\":1,\"start\":1,\"time\":1}
op {\"change\":6,\"op\":\"merged\",\"seq\":2,\"site\":1,\"start\":1,\"time\":2}
done
";

/// What it is asked.
const ASKED: &str = "hello 2\nfront []\nfront [[1,1,1]]\nquit\n";

/// The operation that the second answer adds.
const LAST: &[u8] = br#"{"change":6,"op":"merged","seq":2,"site":1,"start":1,"time":2}"#;

/// A record that is pulled over texts.
type Pulled = Result<Replica, PullFault>;

/// What is pulled of a source, and what it was asked.
fn pulled_of<S: Source>(alloc: Global, source: &mut S) -> (Pulled, Vec<u8>) {
    let mut asked = Ends::new(Vec::new(alloc));
    let pulled = pull_record(alloc, source, &mut asked);
    (pulled, asked.into_inner())
}

/// How many operations were pulled, and whether the one that the second answer adds is one of them.
fn counted(alloc: Global, pulled: &Pulled) -> Option<(usize, bool)> {
    let last = read_op(alloc, LAST).ok()?;
    match pulled {
        Ok(replica) => Some((replica.len(), replica.has(&last))),
        Err(_) => None,
    }
}

#[test]
fn a_record_is_pulled_answer_by_answer(rt: HostRuntime) {
    let (pulled, asked) = pulled_of(rt.alloc(), &mut Ends::new(TWO.as_bytes()));
    assert_found(&rt, counted(rt.alloc(), &pulled), Some((2, true)));
    assert_found(&rt, asked.as_slice(), ASKED.as_bytes());
}

/// Why a source isn't pulled from, if it isn't.
fn unpulled<S: Source>(alloc: Global, source: &mut S) -> Option<PullFault> {
    let (pulled, _) = pulled_of(alloc, source);
    pulled.err()
}

/// A site that answers so isn't pulled from, for this reason.
fn assert_unpulled(rt: &impl Abort, alloc: Global, answers: &str, fault: PullFault) {
    let found = unpulled(alloc, &mut Ends::new(answers.as_bytes()));
    assert_found(rt, found, Some(fault));
}

#[test]
fn answers_that_are_none_are_refused(rt: HostRuntime) {
    let cases = [
        ("", LineFault::BadAnswer),
        ("HTTP/1.1 400 Bad Request\r\n\r\n", LineFault::BadAnswer),
        ("hello 3\n", LineFault::BadVersion),
        ("hello 2\n", LineFault::BadAnswer),
        ("hello 2\nno 5 NoMemory\n", LineFault::BadAnswer),
        ("hello 2\nop {}\ndone\n", LineFault::BadAnswer),
        ("hello 2\nmore\n", LineFault::BadAnswer),
    ];
    for (answers, fault) in cases {
        assert_unpulled(&rt, rt.alloc(), answers, PullFault::Failed(fault));
    }
}

/// The answers of a site of which so many bring a merge, and say that more is left.
fn answers_with_more(alloc: Global, count: u32) -> Option<String> {
    let mut answers = String::from_str(alloc, "hello 2\n").ok()?;
    for number in 1..=count {
        push_merge(&mut answers, number).ok()?;
        answers.push_str("more\n").ok()?;
    }
    Some(answers)
}

/// How a record is pulled of a site with so many such answers, and then one that ends it.
fn pulled_after(alloc: Global, count: u32) -> Option<Result<usize, PullFault>> {
    let mut answers = answers_with_more(alloc, count)?;
    answers.push_str("done\n").ok()?;
    let (pulled, _) = pulled_of(alloc, &mut Ends::new(answers.as_bytes()));
    Some(pulled.map(|replica| replica.len()))
}

// A site that brings something with each answer is asked 65,536 times.
#[test]
fn a_record_has_65536_answers(rt: HostRuntime) {
    let last = pulled_after(rt.alloc(), 65_535);
    assert_found(&rt, last, Some(Ok(65_535)));
    let none = pulled_after(rt.alloc(), 65_536);
    assert_found(&rt, none, Some(Err(PullFault::NoEnd)));
}

// A site that says that more is left, and brings nothing, is asked once more.
#[test]
fn a_record_without_an_end_is_refused(rt: HostRuntime) {
    let answers = "hello 2\nmore\nmore\n";
    let (pulled, asked) = pulled_of(rt.alloc(), &mut Ends::new(answers.as_bytes()));
    assert_found(&rt, pulled.err(), Some(PullFault::NoEnd));
    let wanted = b"hello 2\nfront []\nfront []\nquit\n".as_slice();
    assert_found(&rt, asked.as_slice(), wanted);
}

/// Why a record isn't pulled where what is asked fails before its third byte.
fn unasked(alloc: Global) -> Option<PullFault> {
    let mut asked = Broken::before_byte(Ends::new(Vec::new(alloc)), 3);
    pull_record(alloc, &mut Ends::new(TWO.as_bytes()), &mut asked).err()
}

#[test]
fn ends_that_fail_are_faults(rt: HostRuntime) {
    let mut source = Broken::before_byte(Ends::new(TWO.as_bytes()), 20);
    let unread = unpulled(rt.alloc(), &mut source);
    assert_found(&rt, unread, Some(PullFault::Failed(LineFault::ReadFault)));
    let unwritten = Some(PullFault::Failed(LineFault::WriteFault));
    assert_found(&rt, unasked(rt.alloc()), unwritten);
}
