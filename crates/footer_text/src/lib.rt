//! The changes that a message's `Depends-On:` footers name.
//!
//! Its tests are in the crate `text_tests`.
//!
//! It is a crate of its own so that the gate, the feed and the command `footers` share one function for the rule on
//! footers. Not taken: a regular expression, as Zuul uses: the contract would then define the expression instead of the
//! footer.
//!
//! An example of its use:
//!
//! ```
//! let bases = Bases::new(alloc, &["https://r/"])?;
//! let footers = depends(alloc, &bases, 101, "Fix\n\nDepends-On: https://r/98\n")?;
//! assert_eq!(rt; footers.needs.as_slice(), [98u32].as_slice());
//! ```
#![tactic(auto)]

mod bases;
mod depend;
mod flaw;
mod footer;
mod reading;

pub use bases::{Bases, BasesFault, MOST_BASES};
pub use depend::{Footers, depends, first_line, footers_are_unique};
pub use flaw::{BaseFlaw, base_flaw, bases_have_no_flaw};
pub use footer::footer_value;
pub use reading::read_value;
