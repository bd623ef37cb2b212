//! The texts of reports and of states.
//!
//! Its tests are in the crate `text_tests`.
//!
//! It is a crate of its own so that its contracts define each report byte by byte. Not taken: `std`'s `format!`, which
//! allocates for each line; a report in JSON, which a shell can't read line by line.
//!
//! An example of its use:
//!
//! ```
//! let gate = Gate::read(alloc, br#"{"bases":["https://r/"]}"#)?;
//! let verdicts = evaluate(alloc, &State::new(alloc), &gate)?;
//! let mut printed = Ends::new(Vec::new(alloc));
//! write_report(&verdicts, &mut printed)?;
//! assert_eq!(rt; printed.get_ref().as_slice(), b"end 0 0\n".as_slice());
//! ```
#![tactic(auto)]

mod fault;
mod laws;
mod page;
mod report;
mod state_text;

pub use fault::{WriteReportFault, WriteStateFault};
pub use laws::{
    equal_states_print_equal_reports, equal_states_print_the_same, reports_have_one_reading,
};
pub use page::{Page, make_room, send};
pub use report::{add_end, add_item, add_out, write_report};
pub use state_text::write_state;
