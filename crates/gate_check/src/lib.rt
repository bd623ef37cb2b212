//! What a gate asks, in words, and warnings of what looks mistaken in its gate file, and in the footers of a record.
//!
//! Its tests are in the crate `command_tests`.
//!
//! It is a crate of its own so that warnings can't change a verdict: no crate that judges uses it. Not taken: refusing
//! such a gate file, since it may be written before the first vote is cast.
//!
//! An example of its use:
//!
//! ```
//! let gate = Gate::read(alloc, br#"{"bases":["https://r/"],"require":{"gerrit":{"open":true}}}"#)?;
//! let found = check_gate(alloc, &gate, None)?;
//! assert_eq!(rt; found.text.as_str(), "require /require/gerrit/open open\nend 1 0\n");
//! ```
#![tactic(auto)]

mod asking;
mod checking;
mod evidence;
mod finding;
mod found;
mod ignored;
mod laws;
mod meeting;
mod names;
mod nearest;
mod object;
mod place;
mod unused;
mod warning;
mod words;

pub use checking::{Checked, check_gate};
pub use laws::{
    status_names_are_those_of_changes, the_nearest_name_is_found, voters_are_those_who_can_vote,
    what_is_never_met_lets_nothing_in, what_rejects_nothing_is_never_broken,
};
pub use object::{CheckedLine, check_line};
pub use warning::Warning;
