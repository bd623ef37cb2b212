//! Plays scripts over a world of sites: runs the steps of a script one after the other, and defines what each one
//! prints.
//!
//! Its tests are in the crate `text_tests`.
//!
//! It is a crate of its own so that the theorem can be stated of printed lines. Not taken: a simulation without texts,
//! which couldn't be compared with a running site.
//!
//! | Printed | Of what |
//! |---|---|
//! | `ok TIME,SITE,START,SEQ` | a body that was taken in |
//! | `packet NUMBER COUNT more`, `packet NUMBER COUNT done` | a packet that was packed, and whether more is left |
//! | `took COUNT` | a packet that came |
//! | `saved`, `restarted` | a site that saved, or started again |
//! | `no NUMBER NAME` | what was refused |
//!
//! An example of its use:
//!
//! ```
//! let mut world = World::new(alloc, 1)?;
//! let printed = play_step(alloc, &mut world, Step::Front { site: 1 })?;
//! assert_eq!(rt; printed.as_bytes(), b"[]\n".as_slice());
//! ```
#![tactic(auto)]

mod laws;
mod play;
mod texts;

pub use laws::the_same_operations_print_the_same;
pub use play::play_step;
pub use texts::Text;
