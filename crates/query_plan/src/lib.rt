//! Which changes a feed queries Gerrit for next, by what feeds ask for and by how queries ended.
//!
//! Its tests are in the crate `plan_tests`.
//!
//! It is a crate of its own so that a script that feeds a site decides nothing: it hands on what feeds ask for and how
//! each query ended, and sends the queries that it is answered. Not taken: a loop that sends the queries itself, since
//! that would have to start `ssh`.
//!
//! An example of its use:
//!
//! ```
//! let mut plan = Plan::new(alloc, settings);
//! plan.ask(100, 17, true)?;
//! assert_eq!(rt; plan.next(alloc, 100)?, Query::All);
//! plan.end_well(alloc, 103)?;
//! assert_eq!(rt; plan.next(alloc, 103)?, Query::Changes);
//! assert_eq!(rt; plan.named.as_slice(), [17].as_slice());
//! ```
#![tactic(auto)]

mod ask;
mod end;
mod fault;
mod give;
mod laws;
mod line;
mod marks;
mod notice;
mod plan;
mod run;
mod schedule;
mod step;

pub use fault::PlanFault;
pub use laws::{marks_say_what_waits, named_changes_wait, what_waits_is_kept};
pub use line::{Line, Word, read_line};
pub use marks::Marks;
pub use notice::Notice;
pub use plan::Plan;
pub use run::plan_queries;
pub use schedule::{Failure, Query, Schedule, Settings};
