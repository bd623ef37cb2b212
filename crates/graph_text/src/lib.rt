//! The items of a state and what they wait for as a picture: a graph in the DOT language of Graphviz.
//!
//! Its tests are in the crate `gate_tests`.
//!
//! It is a crate of its own so that the commands don't depend on the format of graphs. Not taken: drawing here:
//! Graphviz has better layouts, and DOT is text that can be searched.
//!
//! An example of its use:
//!
//! ```
//! let gate = Gate::read(alloc, br#"{"bases":["https://r/"]}"#)?;
//! let picture = graph_text(alloc, &gate, &State::new(alloc), None)?;
//! assert!(rt; picture.as_str().starts_with("digraph"));
//! ```
#![tactic(auto)]

mod laws;
mod near;
mod node;
mod nodes;
mod picture;
mod text;

pub use laws::words_need_no_escape;
pub use picture::graph_text;
