//! A world of sites that take in operations and send them to each other in packets, which may be lost, repeated or
//! reordered.
//!
//! Its tests are in the crate `record_tests`.
//!
//! It is a crate of its own so that sites and a network that loses, repeats and reorders are one machine, over which
//! the theorem is stated. Not taken: random runs as the test of convergence (they are tests beside the proof); a model
//! of time, since nothing is promised about time.
//!
//! An example of its use:
//!
//! ```
//! let mut world = World::new(alloc, 2)?;
//! let draft = Draft::Merged { change: 101 };
//! world.step(Event::Intake { site: 1, draft })?;
//! let front = Front::new(alloc);
//! world.step(Event::Send { site: 1, front })?;
//! let reply = world.step(Event::Deliver { packet: 1, site: 2 })?;
//! assert_eq!(rt; reply, Reply::Delivered(1));
//! ```
#![tactic(auto)]

mod event;
mod laws;
mod machine;
mod site;
mod world;

pub use event::{Event, Reply, WorldFault};
pub use laws::{packets_pass_on_what_is_lacked, worlds_converge};
pub use world::World;
