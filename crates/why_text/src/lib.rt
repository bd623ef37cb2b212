//! Why an item is left out: the chain of items that wait for each other, down to the cause, then what the gate file
//! asks there and what the change has.
//!
//! Its tests are in the crate `gate_tests`.
//!
//! It is a crate of its own because it needs the bytes of the gate file, which the crates that judge don't. Not taken:
//! the whole tree of causes instead of one chain, which is too long to read for a large record (`graph` draws it).
//!
//! An example of its use:
//!
//! ```
//! let file = br#"{"bases":["https://r/"]}"#;
//! let gate = Gate::read(alloc, file)?;
//! let message = String::from_str(alloc, "Fix\n\nDepends-On: https://r/98\n")?;
//! let draft = Draft::PatchSet { change: 101, set: 1, message, parent: None };
//! let stamp = Stamp::new(1, 1, 1, 1).ok_or("a stamp")?;
//! let mut state = State::new(alloc);
//! state.take(&Op::new(stamp, Body::checked(draft)?))?;
//! let verdicts = evaluate(alloc, &state, &gate)?;
//! let item = item_asked(&state, 101, None).ok_or("an item")?;
//! let text = why_text(alloc, file, &gate, &state, &verdicts, item)?;
//! assert_eq!(rt; text.as_str(), "101,1 unknown 98\n");
//! ```
#![tactic(auto)]

mod all;
mod asked;
mod chain;
mod cycle;
mod details;
mod laws;
mod why;
mod words;

pub use all::conditions_text;
pub use asked::item_asked;
pub use chain::{Chain, chain_of};
pub use cycle::others_on_cycle;
pub use laws::broken_conditions_are_wanted;
pub use why::why_text;
pub use words::{add_item, add_refusal, refusal_words};
