//! Runs of a plan over lines in memory.

use byte_ends::Ends;
use query_plan::{PlanFault, Settings, plan_queries};
use std::alloc::Global;

/// The times of these runs: five minutes, two seconds and five seconds.
pub const SETTINGS: Settings = Settings {
    every: 300,
    gather: 2,
    pause: 5,
};

/// What was answered, what was written to standard error, and how the run ended.
pub type Talk = (Vec<u8>, Vec<u8>, Result<(), PlanFault>);

/// What comes of these bytes.
pub fn talk_of(alloc: Global, input: &[u8]) -> Talk {
    let mut output = Ends::new(Vec::new(alloc));
    let mut errors = Ends::new(Vec::new(alloc));
    let mut source = Ends::new(input);
    let ended = plan_queries(alloc, SETTINGS, &mut source, &mut output, &mut errors);
    (output.into_inner(), errors.into_inner(), ended)
}
