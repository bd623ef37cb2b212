//! Sessions and pulls over texts, worked out by hand.

use super::asserts::assert_found;
use byte_ends::{Broken, Drain, Ends, Source};
use gate_rules::Gate;
use gossip_line::{
    LineFault, Pulled, answer_lines, pull_rounds, pull_run, pulls_pass_on_all, session_run,
};
use op_text::read_op;
use ready_core::Verdicts;
use replica_core::{Front, Missing, Replica};
use review_ops::{Draft, Op, Stamp};
use site_port::{OwnPort, Port, PortFault, Sink, SinkFault};
use std::alloc::{AllocError, Global};
use std::process::Abort;

/// A gate that wants a workflow vote and a verified vote.
const GATE: &[u8] =
    br#"{"bases":["https://review.example.org/"],"require":{"gerrit":{"approval":[{"Workflow":1},{"Verified":[1,2],"username":"zuul"}]}}}"#;

/// A patch set under the last stamp there is.
const LAST: &[u8] =
    br#"{"change":101,"message":"m","op":"patchset","seq":1,"set":1,"site":2,"start":1,"time":18446744073709551615}"#;

/// Two merges.
pub const MERGE_5: &[u8] = br#"{"change":5,"op":"merged","seq":1,"site":1,"start":1,"time":1}"#;

pub const MERGE_6: &[u8] = br#"{"change":6,"op":"merged","seq":2,"site":1,"start":1,"time":2}"#;

/// What a test lacks where memory is refused that it counts on.
pub const MEMORY: &str = "memory";

/// A replica that holds these operations.
pub fn replica_of(alloc: Global, ops: &[&[u8]]) -> Option<Replica> {
    let mut replica = Replica::new(alloc);
    for op in ops {
        take_text(alloc, &mut replica, op)?;
    }
    Some(replica)
}

/// Has a replica take the operation that a text spells.
fn take_text(alloc: Global, replica: &mut Replica, text: &[u8]) -> Option<()> {
    let op = read_op(alloc, text).ok()?;
    let _taken = replica.take(op).ok()?;
    Some(())
}

/// A port of site 1 under start 1 that holds these operations.
pub fn port_of(alloc: Global, ops: &[&[u8]]) -> Option<OwnPort> {
    let gate = Gate::read(alloc, GATE).ok()?;
    let replica = replica_of(alloc, ops)?;
    Some(OwnPort::new(replica, gate, 1, 1))
}

/// Lines of a session, what they are answered and how it ends.
#[derive(Clone, Copy)]
struct Talk {
    lines: &'static [u8],
    text: &'static [u8],
    fault: Option<LineFault>,
}

/// What a session writes, and how it ends.
type Session = (Vec<u8>, Option<LineFault>);

/// The session over a port whose lines are those of a source.
fn session_over<S: Source, P: Port>(alloc: Global, source: &mut S, port: &mut P) -> Session {
    let mut drain = Ends::new(Vec::new(alloc));
    let fault = session_run(alloc, source, &mut drain, port).err();
    (drain.into_inner(), fault)
}

/// The session of these lines, over a port that holds these operations.
fn session_of(alloc: Global, ops: &[&[u8]], lines: &[u8]) -> Option<Session> {
    let mut port = port_of(alloc, ops)?;
    Some(session_over(alloc, &mut Ends::new(lines), &mut port))
}

/// A session ended and wrote so.
fn assert_session(rt: &impl Abort, session: &Session, text: &[u8], fault: Option<LineFault>) {
    assert_found(rt, (session.1, session.0.as_slice()), (fault, text));
}

/// The lines are answered so, over a port that holds these operations.
fn assert_talk(rt: &impl Abort, alloc: Global, ops: &[&[u8]], talk: &Talk) {
    let session = session_of(alloc, ops, talk.lines).expect(rt, MEMORY);
    assert_session(rt, &session, talk.text, talk.fault);
}

#[test]
fn each_line_is_answered(rt: HostRuntime) {
    for talk in &[
        Talk {
            lines: b"hello 2\ntake {\"change\":101,\"op\":\"merged\"}\nready\nquit\n",
            text: b"hello 2\nno 9 ClockSpent\nout 101,1 require approval 1\nend 0 1\nbye\n",
            fault: None,
        },
        Talk {
            lines: b"hello 2\nstate\n",
            text: b"hello 2\nchange 101 NEW\nset 101,1 18446744073709551615,2,1,1 \"m\"\nend 1\n",
            fault: None,
        },
        Talk {
            lines: b"ready\n",
            text: b"no 2 BadVersion\n",
            fault: Some(LineFault::BadVersion),
        },
        Talk {
            lines: b"hello 1\n",
            text: b"no 2 BadVersion\n",
            fault: Some(LineFault::BadVersion),
        },
        Talk {
            lines: b"hello 2\r\nfoo\ntake {}\nfront [[1]]\n\n\xff\ntake \xff\nhello 2\nhello 3\nquit\n",
            text: b"hello 2\nno 6 BadCommand\nno 7 BadText\nno 7 BadText\nno 6 BadCommand\nno 6 BadCommand\nno 7 BadText\nhello 2\nno 2 BadVersion\n",
            fault: Some(LineFault::BadVersion),
        },
        Talk {
            lines: b"hello 2\nheard\nheard \nheard\nready\n",
            text: b"hello 2\nnoted\nno 6 BadCommand\nnoted\nout 101,1 require approval 1\nend 0 1\n",
            fault: None,
        },
        Talk {
            lines: b"heard\n",
            text: b"no 2 BadVersion\n",
            fault: Some(LineFault::BadVersion),
        },
        Talk {
            lines: b"hello 2\nready",
            text: b"hello 2\n",
            fault: None,
        },
    ] {
        assert_talk(&rt, rt.alloc(), &[LAST], talk);
    }
}

#[test]
fn what_is_lacked_and_taken_is_answered(rt: HostRuntime) {
    let talk = Talk {
        lines: b"hello 2\nfront [[1,1,1]]\ntake {\"change\":0,\"op\":\"merged\"}\ntake {\"change\":7,\"op\":\"merged\"}\nquit\nquit\n",
        text: b"hello 2\nop {\"change\":6,\"op\":\"merged\",\"seq\":2,\"site\":1,\"start\":1,\"time\":2}\ndone\nno 8 BadBody\nok 3,1,1,3\nbye\n",
        fault: None,
    };
    assert_talk(&rt, rt.alloc(), &[MERGE_5, MERGE_6], &talk);
}

/// The session of these lines, where a line has at most seven bytes and a session three lines.
fn limited_session(alloc: Global, lines: &[u8]) -> Option<Session> {
    let mut port = port_of(alloc, &[])?;
    let mut drain = Ends::new(Vec::new(alloc));
    let fault = answer_lines(alloc, 7, 3, &mut Ends::new(lines), &mut drain, &mut port).err();
    Some((drain.into_inner(), fault))
}

#[test]
fn lines_and_sessions_have_their_limits(rt: HostRuntime) {
    for talk in &[
        Talk {
            lines: b"hello 2\naaaaaaa\naaaaaaaa\n",
            text: b"hello 2\nno 6 BadCommand\nno 1 LongLine\n",
            fault: Some(LineFault::LongLine),
        },
        Talk {
            lines: b"hello 2\n\n\n",
            text: b"hello 2\nno 6 BadCommand\nno 6 BadCommand\n",
            fault: Some(LineFault::ReadFault),
        },
        Talk {
            lines: b"hello 2\n\nquit\n",
            text: b"hello 2\nno 6 BadCommand\nbye\n",
            fault: None,
        },
        Talk {
            lines: b"hello 2\n\n",
            text: b"hello 2\nno 6 BadCommand\n",
            fault: None,
        },
    ] {
        let session = limited_session(rt.alloc(), talk.lines).expect(&rt, MEMORY);
        assert_session(&rt, &session, talk.text, talk.fault);
    }
}

/// The session of these lines over an empty port, from a source that fails before this byte.
fn session_before(alloc: Global, lines: &[u8], byte: u64) -> Option<Session> {
    let mut port = port_of(alloc, &[])?;
    let mut source = Broken::before_byte(Ends::new(lines), byte);
    Some(session_over(alloc, &mut source, &mut port))
}

#[test]
fn a_failing_source_ends_the_session(rt: HostRuntime) {
    let lines = b"hello 2\ntake".as_slice();
    let session = session_before(rt.alloc(), lines, 11).expect(&rt, MEMORY);
    assert_session(&rt, &session, b"hello 2\n", Some(LineFault::ReadFault));
}

/// How a session over a port ends whose writer fails at one of its calls, and how many calls of that failed.
fn broken_session(
    alloc: Global,
    port: &mut OwnPort,
    lines: &[u8],
    call: u64,
) -> (Option<LineFault>, u64) {
    let mut drain = Broken::at_call(Ends::new(Vec::new(alloc)), call);
    let fault = session_run(alloc, &mut Ends::new(lines), &mut drain, port).err();
    (fault, drain.failures())
}

/// How such a session ends over a port that holds these operations, how many calls of its writer failed, and how many
/// operations the site then has.
fn broken_talk(
    alloc: Global,
    ops: &[&[u8]],
    lines: &[u8],
    call: u64,
) -> Option<(Option<LineFault>, u64, usize)> {
    let mut port = port_of(alloc, ops)?;
    let (fault, failures) = broken_session(alloc, &mut port, lines, call);
    Some((fault, failures, port.replica().len()))
}

/// Where the writing of an answer fails, what it reports was done.
#[test]
fn a_failing_drain_ends_the_session(rt: HostRuntime) {
    let lines = b"hello 2\ntake {\"change\":7,\"op\":\"merged\"}\nquit\n".as_slice();
    for (call, count) in [(1, 0), (2, 1)] {
        let wanted = (Some(LineFault::WriteFault), 1, count);
        assert_found(&rt, broken_talk(rt.alloc(), &[], lines, call), Some(wanted));
    }
}

/// How such a session ends over a port of two operations that is only asked.
fn broken_asking(alloc: Global, call: u64) -> Option<(Option<LineFault>, u64, usize)> {
    let lines = b"hello 2\nfront [[1,1,1]]\nready\nstate\nfoo\nquit\n".as_slice();
    broken_talk(alloc, &[MERGE_5, MERGE_6], lines, call)
}

/// How many calls of a writer may fail, each in turn: the session ends there, and the site stays as it was. None where
/// it goes otherwise.
fn failing_calls(alloc: Global) -> Option<u64> {
    let mut last = 0;
    for call in 1..=100_u64 {
        let ended = broken_asking(alloc, call)?;
        if ended.0.is_none() {
            return Some(last);
        }
        if ended != (Some(LineFault::WriteFault), 1, 2) {
            return None;
        }
        last = call;
    }
    None
}

/// A writer that fails at each of its calls in turn: the session ends there, and a site that was only asked stays as it
/// was.
#[test]
fn each_write_may_fail(rt: HostRuntime) {
    let last = failing_calls(rt.alloc()).expect(&rt, "a session that ends at each failure");
    assert_found(&rt, 6 <= last && last < 100, true);
}

/// Adds a part so many times to a text.
fn add_times(text: &mut String, part: &str, count: usize) -> Option<()> {
    for _ in 0..count {
        text.push_str(part).ok()?;
    }
    Some(())
}

/// A text of the first line, `count` empty lines and this last line.
fn empty_lines(alloc: Global, count: usize, last: &str) -> Option<String> {
    let mut text = String::from_str(alloc, "hello 2\n").ok()?;
    add_times(&mut text, "\n", count)?;
    text.push_str(last).ok()?;
    Some(text)
}

/// How a session of these lines ends, and whether its answers end so.
fn ended_session(alloc: Global, lines: &[u8], end: &str) -> Option<(Option<LineFault>, bool)> {
    let (written, fault) = session_of(alloc, &[], lines)?;
    Some((fault, written.as_slice().ends_with(end.as_bytes())))
}

/// The same of so many empty lines and a last one.
fn ended_empty(
    alloc: Global,
    count: usize,
    last: &str,
    end: &str,
) -> Option<(Option<LineFault>, bool)> {
    let text = empty_lines(alloc, count, last)?;
    ended_session(alloc, text.as_bytes(), end)
}

#[test]
fn a_session_has_a_million_lines(rt: HostRuntime) {
    for (count, last, fault, end) in [
        (999_998, "", None, "no 6 BadCommand\n"),
        (999_998, "quit\n", None, "bye\n"),
        (999_999, "", Some(LineFault::ReadFault), "no 6 BadCommand\n"),
        (
            999_999,
            "quit\n",
            Some(LineFault::ReadFault),
            "no 6 BadCommand\n",
        ),
    ] {
        let ended = ended_empty(rt.alloc(), count, last, end);
        assert_found(&rt, ended, Some((fault, true)));
    }
}

/// The first line, and then lines of so many letters.
fn letter_lines(alloc: Global, lengths: [usize; 2]) -> Option<String> {
    let mut lines = String::from_str(alloc, "hello 2\n").ok()?;
    for length in lengths {
        add_times(&mut lines, "a", length)?;
        lines.push('\n').ok()?;
    }
    Some(lines)
}

#[test]
fn a_line_has_half_a_mebibyte(rt: HostRuntime) {
    let lines = letter_lines(rt.alloc(), [524_288, 524_289]).expect(&rt, MEMORY);
    let session = session_of(rt.alloc(), &[], lines.as_bytes()).expect(&rt, MEMORY);
    let answers = b"hello 2\nno 6 BadCommand\nno 1 LongLine\n".as_slice();
    assert_session(&rt, &session, answers, Some(LineFault::LongLine));
}

/// How a pull ends, and what it asks of a peer.
type Pull = (Result<Pulled, LineFault>, Vec<u8>);

/// The pull by a sink of what a peer has that says this.
fn pull_by<K: Sink>(alloc: Global, peer: &[u8], sink: &mut K) -> Pull {
    let mut drain = Ends::new(Vec::new(alloc));
    let ended = pull_run(alloc, &mut Ends::new(peer), &mut drain, sink);
    (ended, drain.into_inner())
}

/// How a pull by lines of at most so many bytes ends, where the peer has nothing more, and what it asks.
fn pulled_within(alloc: Global, limit: usize) -> Option<Pull> {
    let mut port = port_of(alloc, &[MERGE_5])?;
    let mut drain = Ends::new(Vec::new(alloc));
    let mut peer = Ends::new(b"hello 2\ndone\n".as_slice());
    let ended = pull_rounds(alloc, limit, 1, &mut peer, &mut drain, &mut port);
    Some((ended, drain.into_inner()))
}

/// Whether a pull by such lines ends so, and asks this.
fn is_pulled_within(
    alloc: Global,
    limit: usize,
    ended: Result<Pulled, LineFault>,
    asked: &[u8],
) -> Option<bool> {
    let found = pulled_within(alloc, limit)?;
    Some(found.0 == ended && found.1.as_slice() == asked)
}

// The line of the front has 15 bytes.
#[test]
fn a_front_that_is_too_long_for_a_line_is_not_sent(rt: HostRuntime) {
    let none = Pulled {
        rounds: 1,
        taken: 0,
        more: false,
    };
    let asked = b"hello 2\nfront [[1,1,1]]\nquit\n".as_slice();
    let is_sent = is_pulled_within(rt.alloc(), 15, Ok(none), asked);
    assert_found(&rt, is_sent, Some(true));
    let is_unsent = is_pulled_within(rt.alloc(), 14, Err(LineFault::LongLine), b"hello 2\n");
    assert_found(&rt, is_unsent, Some(true));
}

/// A site that has ended.
#[derive(Drop)]
struct Ended;

impl Port for Ended {
    ghost use Rattle.std.specs.Prelude.{◌≡◌};
    ghost use Rattle.site_port.specs.Ports.{refused};
    ghost use Rattle.site_port.specs.declared.fault.PortFault.TheVariants.{Closed};

    ghost gives = { λ _ _ reply _. reply ≡ refused Closed };

    fn intake(&mut self, _draft: Draft) -> Result<Stamp, PortFault> {
        Err(PortFault::Closed)
    }

    fn missing(&mut self, _front: &Front) -> Result<Missing, PortFault> {
        Err(PortFault::Closed)
    }

    fn report(&mut self) -> Result<Verdicts, PortFault> {
        Err(PortFault::Closed)
    }

    fn look(&mut self) -> Result<Replica, PortFault> {
        Err(PortFault::Closed)
    }
}

impl Sink for Ended {
    ghost use Rattle.std.specs.Prelude.{◌≡◌};
    ghost use Rattle.site_port.specs.Sinks.{declined};
    ghost use Rattle.site_port.specs.declared.fault.SinkFault.TheVariants.{Closed};

    ghost sinks = { λ _ _ uptake _. uptake ≡ declined Closed };

    fn front(&mut self) -> Result<Front, SinkFault> {
        Err(SinkFault::Closed)
    }

    fn latest_time(&mut self) -> Result<u64, SinkFault> {
        Err(SinkFault::Closed)
    }

    fn take_all(&mut self, _ops: Vec<Op>) -> Result<(), SinkFault> {
        Err(SinkFault::Closed)
    }
}

/// How a pull by a sink of what a peer has ends that says hello and nothing more.
fn pulled_by<K: Sink>(alloc: Global, sink: &mut K) -> Result<Pulled, LineFault> {
    pull_by(alloc, b"hello 2\n", sink).0
}

#[test]
fn a_site_that_has_ended_says_so(rt: HostRuntime) {
    let lines = b"hello 2\ntake {\"change\":101,\"op\":\"merged\"}\nquit\n".as_slice();
    let session = session_over(rt.alloc(), &mut Ends::new(lines), &mut Ended);
    assert_session(&rt, &session, b"hello 2\nno 10 Closed\nbye\n", None);
    assert_found(
        &rt,
        pulled_by(rt.alloc(), &mut Ended),
        Err(LineFault::Closed),
    );
}

/// A site that is refused memory for all that it is asked.
#[derive(Drop)]
struct Full;

impl Port for Full {
    ghost use Rattle.std.specs.Prelude.{◌≡◌};
    ghost use Rattle.site_port.specs.Ports.{refused};
    ghost use Rattle.site_port.specs.declared.fault.PortFault.TheVariants.{NoMemory};

    ghost gives = { λ _ _ reply _. reply ≡ refused NoMemory };

    fn intake(&mut self, _draft: Draft) -> Result<Stamp, PortFault> {
        Err(PortFault::NoMemory)
    }

    fn missing(&mut self, _front: &Front) -> Result<Missing, PortFault> {
        Err(PortFault::NoMemory)
    }

    fn report(&mut self) -> Result<Verdicts, PortFault> {
        Err(PortFault::NoMemory)
    }

    fn look(&mut self) -> Result<Replica, PortFault> {
        Err(PortFault::NoMemory)
    }
}

impl Sink for Full {
    ghost use Rattle.std.specs.Prelude.{◌≡◌};
    ghost use Rattle.site_port.specs.Sinks.{declined};
    ghost use Rattle.site_port.specs.declared.fault.SinkFault.TheVariants.{NoMemory};

    ghost sinks = { λ _ _ uptake _. uptake ≡ declined NoMemory };

    fn front(&mut self) -> Result<Front, SinkFault> {
        Err(SinkFault::NoMemory)
    }

    fn latest_time(&mut self) -> Result<u64, SinkFault> {
        Err(SinkFault::NoMemory)
    }

    fn take_all(&mut self, _ops: Vec<Op>) -> Result<(), SinkFault> {
        Err(SinkFault::NoMemory)
    }
}

#[test]
fn refused_memory_is_an_answer(rt: HostRuntime) {
    let lines =
        b"hello 2\ntake {\"change\":101,\"op\":\"merged\"}\nfront []\nready\nstate\nquit\n".as_slice();
    let session = session_over(rt.alloc(), &mut Ends::new(lines), &mut Full);
    let answers =
        b"hello 2\nno 5 NoMemory\nno 5 NoMemory\nno 5 NoMemory\nno 5 NoMemory\nbye\n".as_slice();
    assert_session(&rt, &session, answers, None);
    assert_found(
        &rt,
        pulled_by(rt.alloc(), &mut Full),
        Err(LineFault::NoMemory),
    );
}

/// What a peer says, what a pull by an empty site writes to it, how it ends, and how many operations the site then has.
#[derive(Clone, Copy)]
struct Pulling {
    peer: &'static [u8],
    asked: &'static [u8],
    ended: Result<Pulled, LineFault>,
    count: usize,
}

/// The pull by an empty site of what a peer has that says this, and how many operations the site then has.
fn first_pull(alloc: Global, peer: &[u8]) -> Option<(Pull, usize)> {
    let mut sink = port_of(alloc, &[])?;
    let pull = pull_by(alloc, peer, &mut sink);
    Some((pull, sink.replica().len()))
}

/// What a peer says is pulled so.
fn assert_pulls(rt: &impl Abort, alloc: Global, pulling: &Pulling) {
    let ((ended, asked), count) = first_pull(alloc, pulling.peer).expect(rt, MEMORY);
    let wanted = (pulling.ended, pulling.count, pulling.asked);
    assert_found(rt, (ended, count, asked.as_slice()), wanted);
}

#[test]
fn whole_answers_are_handed_over(rt: HostRuntime) {
    pulls_pass_on_all();
    for pulling in &[
        Pulling {
            peer: b"hello 2\nop {\"change\":5,\"op\":\"merged\",\"seq\":1,\"site\":1,\"start\":1,\"time\":1}\ndone\n",
            asked: b"hello 2\nfront []\nquit\n",
            ended: Ok(Pulled {
                rounds: 1,
                taken: 1,
                more: false,
            }),
            count: 1,
        },
        Pulling {
            peer: b"hello 2\nop {\"change\":5,\"op\":\"merged\",\"seq\":1,\"site\":1,\"start\":1,\"time\":1}\n",
            asked: b"hello 2\nfront []\n",
            ended: Err(LineFault::BadAnswer),
            count: 0,
        },
        Pulling {
            peer: b"hello 2\nop {\"change\":5,\"op\":\"merged\",\"seq\":1,\"site\":1,\"start\":1,\"time\":1}\nmore\nfoo\n",
            asked: b"hello 2\nfront []\nfront [[1,1,1]]\n",
            ended: Err(LineFault::BadAnswer),
            count: 1,
        },
        Pulling {
            peer: b"hello 1\n",
            asked: b"hello 2\n",
            ended: Err(LineFault::BadVersion),
            count: 0,
        },
    ] {
        assert_pulls(&rt, rt.alloc(), pulling);
    }
}

// What lies past a gap no front says: the first operation of its start isn't there.
#[test]
fn a_front_is_asked_with_twice_at_most(rt: HostRuntime) {
    for pulling in &[
        Pulling {
            peer: b"hello 2\nop {\"change\":5,\"op\":\"merged\",\"seq\":2,\"site\":1,\"start\":1,\"time\":2}\nmore\nop {\"change\":5,\"op\":\"merged\",\"seq\":2,\"site\":1,\"start\":1,\"time\":2}\nmore\n",
            asked: b"hello 2\nfront []\nfront []\nquit\n",
            ended: Ok(Pulled {
                rounds: 2,
                taken: 2,
                more: true,
            }),
            count: 1,
        },
        Pulling {
            peer: b"hello 2\nmore\nop {\"change\":5,\"op\":\"merged\",\"seq\":1,\"site\":1,\"start\":1,\"time\":1}\ndone\n",
            asked: b"hello 2\nfront []\nfront []\nquit\n",
            ended: Ok(Pulled {
                rounds: 2,
                taken: 1,
                more: false,
            }),
            count: 1,
        },
        Pulling {
            peer: b"hello 2\nop {\"change\":5,\"op\":\"merged\",\"seq\":1,\"site\":1,\"start\":1,\"time\":1}\nmore\nmore\nop {\"change\":6,\"op\":\"merged\",\"seq\":2,\"site\":1,\"start\":1,\"time\":2}\nmore\n",
            asked: b"hello 2\nfront []\nfront [[1,1,1]]\nfront [[1,1,1]]\nquit\n",
            ended: Ok(Pulled {
                rounds: 3,
                taken: 2,
                more: true,
            }),
            count: 2,
        },
    ] {
        assert_pulls(&rt, rt.alloc(), pulling);
    }
}

/// Adds the merge of a change with this number, which is its sequence number and time, too.
pub fn push_merge(text: &mut String, number: u32) -> Result<(), AllocError> {
    write!(
        text,
        "op {{\"change\":{number},\"op\":\"merged\",\"seq\":{number},"
    )?;
    write!(text, "\"site\":1,\"start\":1,\"time\":{number}}}\n")
}

/// What a peer answers of so many merges, in one round.
fn answer_of(alloc: Global, count: u32) -> Option<String> {
    let mut text = String::from_str(alloc, "hello 2\n").ok()?;
    for number in 1..=count {
        push_merge(&mut text, number).ok()?;
    }
    text.push_str("done\n").ok()?;
    Some(text)
}

/// How a pull by an empty site of so many merges ends, and how many operations the site then has.
fn pulled_merges(alloc: Global, count: u32) -> Option<(Result<Pulled, LineFault>, usize)> {
    let text = answer_of(alloc, count)?;
    let (pull, held) = first_pull(alloc, text.as_bytes())?;
    Some((pull.0, held))
}

#[test]
fn an_answer_has_256_operations(rt: HostRuntime) {
    let whole = Pulled {
        rounds: 1,
        taken: 256,
        more: false,
    };
    assert_found(&rt, pulled_merges(rt.alloc(), 256), Some((Ok(whole), 256)));
    let refused = (Err(LineFault::BadAnswer), 0);
    assert_found(&rt, pulled_merges(rt.alloc(), 257), Some(refused));
}

/// What a peer answers that has so many merges, one an answer, and more.
fn answers_of(alloc: Global, count: u32) -> Option<String> {
    let mut text = String::from_str(alloc, "hello 2\n").ok()?;
    for number in 1..=count {
        push_merge(&mut text, number).ok()?;
        text.push_str("more\n").ok()?;
    }
    Some(text)
}

#[test]
fn a_pull_has_4096_answers(rt: HostRuntime) {
    let text = answers_of(rt.alloc(), 4097).expect(&rt, MEMORY);
    let ((ended, _), count) = first_pull(rt.alloc(), text.as_bytes()).expect(&rt, MEMORY);
    let whole = Pulled {
        rounds: 4096,
        taken: 4096,
        more: true,
    };
    assert_found(&rt, (ended, count), (Ok(whole), 4096));
}

/// How many operations a pull by a site takes of what a peer has that says this, and how many the site then has.
fn taken_by(alloc: Global, peer: &[u8], port: &mut OwnPort) -> Result<(u64, usize), LineFault> {
    let taken = pull_by(alloc, peer, port).0?.taken;
    Ok((taken, port.replica().len()))
}

/// Two votes under one stamp are two operations of a pull, and the greater value counts.
#[test]
fn one_stamp_may_bring_two_votes(rt: HostRuntime) {
    let peer =
        b"hello 2\nop {\"change\":101,\"message\":\"m\",\"op\":\"patchset\",\"seq\":1,\"set\":1,\"site\":1,\"start\":1,\"time\":1}\nop {\"change\":101,\"label\":\"workflow\",\"op\":\"vote\",\"seq\":3,\"set\":1,\"site\":1,\"start\":1,\"time\":3,\"value\":1,\"voter\":\"ann\"}\nop {\"change\":101,\"label\":\"workflow\",\"op\":\"vote\",\"seq\":3,\"set\":1,\"site\":1,\"start\":1,\"time\":3,\"value\":2,\"voter\":\"ann\"}\ndone\n".as_slice();
    let mut port = port_of(rt.alloc(), &[]).expect(&rt, MEMORY);
    assert_found(&rt, taken_by(rt.alloc(), peer, &mut port), Ok((3, 3)));
    let lines = b"hello 2\nstate\n".as_slice();
    let session = session_over(rt.alloc(), &mut Ends::new(lines), &mut port);
    let state =
        b"hello 2\nchange 101 NEW\nset 101,1 1,1,1,1 \"m\"\nvote 101,1 workflow ann 2 3,1,1,3\nend 1\n".as_slice();
    assert_session(&rt, &session, state, None);
}

#[test]
fn faults_have_numbers_and_names(rt: HostRuntime) {
    for (fault, number, name) in [
        (LineFault::LongLine, 1, "LongLine"),
        (LineFault::BadVersion, 2, "BadVersion"),
        (LineFault::ReadFault, 3, "ReadFault"),
        (LineFault::WriteFault, 4, "WriteFault"),
        (LineFault::NoMemory, 5, "NoMemory"),
        (LineFault::BadAnswer, 6, "BadAnswer"),
        (LineFault::Closed, 7, "Closed"),
        (LineFault::NotListed, 11, "NotListed"),
        (LineFault::FarAhead, 12, "FarAhead"),
    ] {
        assert_found(&rt, (fault.number(), fault.name()), (number, name));
    }
}
