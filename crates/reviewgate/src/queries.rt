//! Runs the command `queries`.

use byte_ends::{Drain, Source};
use command_line::QueryWords;
use console::show_line;
use query_plan::{PlanFault, Settings, plan_queries};
use refusal_line::{Part, refusal_line};
use std::alloc::{AllocError, Global};

/// How many seconds a minute has.
const MINUTE: u64 = 60;

/// Runs `queries`: reads what feeds ask for and how queries ended, and writes which changes are to be queried, where a
/// line of the input asks for that. Returns the exit status: 0 at the end of the input, else 1, with the line of the
/// fault on `errors`: a line of the input is none, or says what became of a query though none is under way, the input
/// or an output failed, or memory was refused.
pub fn plan<I: Source, O: Drain, E: Drain>(
    alloc: Global,
    words: QueryWords,
    input: &mut I,
    output: &mut O,
    errors: &mut E,
) -> u8 {
    let settings = Settings {
        every: words.every.saturating_mul(MINUTE),
        gather: words.gather,
        pause: words.pause,
    };
    match plan_queries(alloc, settings, input, output, errors) {
        Ok(()) => 0,
        Err(fault) => {
            show_line(&fault_line(alloc, &fault), errors);
            1
        }
    }
}

/// The line of a fault.
fn fault_line(alloc: Global, fault: &PlanFault) -> Result<String, AllocError> {
    let mut words = String::new(alloc);
    fault.write_words(&mut words)?;
    refusal_line(alloc, Part::Queries, fault.number(), words.as_str())
}
