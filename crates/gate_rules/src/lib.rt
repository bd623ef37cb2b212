//! The rules of a gate: the settings of a gate file, and the conditions that an item has to meet.
//!
//! Its tests are in the crate `gate_tests`.
//!
//! It is a crate of its own so that a gate file has one meaning in every command. Not taken: a derive of `serde` for
//! the gate file, since a refusal has to name the first bad key in a fixed order; Zuul's YAML pipeline itself, which
//! has much that a record can't answer.
//!
//! A gate file is one JSON object (RFC 8259), read as serde_json's `Value` reads it.
//!
//! | Key | Value |
//! |---|---|
//! | `bases` | required: a list of texts that `Bases::new` of `footer_text` accepts |
//! | `connection` | a text; `gerrit` where it is absent |
//! | `allow-circular-dependencies` | a boolean; false where it is absent |
//! | `require`, `reject` | an object whose one possible member, named by the connection, is an object of conditions |
//!
//! The conditions are those of Zuul's Gerrit driver: `open` and `current-patchset` (booleans), `status` (a text or a
//! list of texts), and `approval` (an object or a list of objects). An absent condition demands nothing. In an approval
//! `username` is a text, and any other key of 1 to 64 ASCII letters, digits and `-` is a label, whose value is a whole
//! number from -128 to 127 or a list of such numbers. `wip`, `hashtags`, `email`, `older-than` and `newer-than`, which
//! Zuul has, are refused as not supported.
//!
//! An example of its use:
//!
//! ```
//! let gate = Gate::read(alloc, br#"{"bases":["https://r/"],"require":{"gerrit":{"open":true}}}"#)?;
//! assert!(rt; !gate.cycles());
//! assert!(rt; Gate::read(alloc, b"{}").is_err());
//! ```
#![tactic(auto)]

mod bad_base;
mod build;
mod condition;
mod fault;
mod gate;
mod keys;
mod laws;
mod own;
mod place;
mod tried;
mod value;
mod walk;
mod wanted;

pub use bad_base::{BadBase, ItemFlaw};
pub use condition::{Clause, Condition, Side};
pub use fault::GateFault;
pub use gate::{Clauses, Gate, LabelValues, Pattern};
pub use laws::{each_condition_is_tried, the_first_fault_is_found};
pub use place::Place;
pub use tried::Tried;
pub use wanted::wanted_text;
