//! Directed graphs: walks, distances, cycles, and what leads to nodes and is reached from them.
//!
//! Its tests are in the crate `walk_tests`.
//!
//! It is a crate of its own so that graphs are proved without changes and gates. There is no graph library among those
//! of the toolchain. Not taken: a sort by depth-first search alone (cycles are allowed by some gates), and counting
//! what each node leads to by a search from each (quadratic; it is the slow program of the tests).
//!
//! An example of its use:
//!
//! ```
//! let mut first = Vec::new(alloc);
//! first.push(1usize)?;
//! let mut ends = Vec::new(alloc);
//! ends.push(first)?;
//! ends.push(Vec::new(alloc))?;
//! let graph = Digraph::new(alloc, ends)?;
//! let distances = graph.distances(&[false, true])?;
//! assert_eq!(rt; distances.as_slice(), [Some(1), Some(0)].as_slice());
//! ```
#![tactic(auto)]

mod block;
mod component;
mod counts;
mod cycles;
mod digraph;
mod distances;
mod edges;
mod finish;
mod laws;
mod leads;
mod ranks;
mod reach;
mod regions;
mod sums;

pub use digraph::Digraph;
pub use laws::{distances_along_edges, distances_go_down, rank_order_is_one, reaching_goes_on};
pub use ranks::NodeRank;
pub use reach::{leading, reached};
