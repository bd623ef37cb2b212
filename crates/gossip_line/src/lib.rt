//! Sessions, in which a site answers line by line, and pulls, by which one site takes what another has. Lines end in
//! LF, and one carriage return before it is dropped.
//!
//! Its tests are in the crate `site_tests`.
//!
//! It is a crate of its own so that the protocol between sites is the same over memory, pipes and sockets. Not taken:
//! HTTP and gRPC, whose headers and framing a shell can't write by hand; pushing to peers, which needs a list of peers:
//! a pull needs only the puller's own front.
//!
//! | Line | Answer |
//! |---|---|
//! | `hello 2`, which comes first | `hello 2` |
//! | `take BODY` | `ok STAMP` |
//! | `front FRONT` | up to 256 lines `op OPERATION`, then `more` or `done` |
//! | `ready` | the report |
//! | `state` | the state text |
//! | `heard`, that what feeds the site heard from Gerrit | `noted` |
//! | `quit` | `bye`; the session ends well |
//!
//! What is refused is answered `no NUMBER NAME`:
//!
//! | Answer | Where |
//! |---|---|
//! | `no 1 LongLine` | a line has more than 524,288 bytes; the session ends |
//! | `no 2 BadVersion` | the first line isn't `hello 2`, or another version is named; the session ends |
//! | `no 5 NoMemory` | memory was refused |
//! | `no 6 BadCommand` | any other line |
//! | `no 7 BadText` | BODY or FRONT isn't read |
//! | `no 8 BadBody` | the body is refused |
//! | `no 9 ClockSpent` | no stamp is left |
//! | `no 10 Closed` | the site has ended |
//!
//! A site that authenticates its clients by keys may answer `no 11 NotAllowed`; the sessions of this crate, which are
//! allowed everything, never do.
//!
//! An example of its use:
//!
//! ```
//! let gate = Gate::read(alloc, br#"{"bases":["https://r/"]}"#)?;
//! let mut port = OwnPort::new(Replica::new(alloc), gate, 1, 1);
//! let lines = b"hello 2\ntake {\"op\":\"merged\",\"change\":101}\n".as_slice();
//! let mut source = Ends::new(lines);
//! let mut answers = Ends::new(Vec::new(alloc));
//! session_run(alloc, &mut source, &mut answers, &mut port)?;
//! assert_eq!(rt; answers.get_ref().as_slice(), b"hello 2\nok 1,1,1,1\n".as_slice());
//! ```
#![tactic(auto)]

mod answer;
mod command;
mod fault;
mod laws;
mod pull;
mod send;
mod session;
mod step;

pub use fault::LineFault;
pub use laws::pulls_pass_on_all;
pub use pull::{Pulled, greet, pull_rounds, pull_run, read_round, send_front};
pub use session::{answer_lines, session_run};
pub use step::{Look, Saying, Step, is_take, say, say_taken, say_too_long, show, step_of};
