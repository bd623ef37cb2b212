//! Answers one line of a session.

ghost use Rattle.gossip_line.specs.Answers.{IsAnswered};

use super::fault::LineFault;
use super::step::{Step, say, say_taken, show, step_of};
use byte_ends::Drain;
use site_port::Port;
use std::alloc::Global;

/// Answers a line, and says whether the session goes on.
pub fn answer<D: Drain, P: Port>(
    alloc: Global,
    first: bool,
    line: &[u8],
    drain: &mut D,
    port: &mut P,
) -> Result<bool, LineFault>
    ensures { IsAnswered P.gives first port.old line.now port.new
        (D.taken drain.old) (D.taken drain.new) (D.failed drain.old) (D.failed drain.new) result }
{
    match step_of(alloc, first, line) {
        Step::Says(saying) => say(saying, drain),
        Step::Takes(draft) => say_taken(port.intake(draft), drain),
        Step::Looks(look) => show(alloc, &look, drain, port),
    }
}
