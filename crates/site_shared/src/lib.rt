//! A running site that threads share without locks: one desk takes in and publishes operations, up to 64 windows read
//! beside it and never wait for it, and a receipt makes sure that a window has seen a given publish.
//!
//! Its tests are in the crate `site_tests`.
//!
//! It is a crate of its own so that no other crate uses `left_right` and `logbook`. Not taken: one lock around the
//! replica (readers would wait for the disk), and `rayon` or message passing for reads, which would copy the record for
//! each.
//!
//! What was published is one list, which begins with the journal that the site was opened with and only grows. The
//! desk's account is that list and what is held; each look of a window is at one prefix of the list, which goes on from
//! all that the window has seen and learnt. A watch keeps the verdicts on what a window saw, and a window brings it up
//! to date. A viewer is shown a record and the verdicts on it, both of one moment.
//!
//! | Fault | Where |
//! |---|---|
//! | `OpenFault` 1 `NoMemory`, 2 `NoPlace`, 3 `StartUsed` | of `open_site` |
//! | `DeskFault` 1 `ClockSpent`, 2 `BadBody` | of an intake or a hold: nothing changes |
//! | `DeskFault` 3 `NoMemory` | of a call of the desk: the first so many of its operations are held |
//! | `Stranger` 1 | of `Window::learn`: a receipt of another site or start |
//! | `WindowFault` 2 `NoMemory`, 3 `Closed` | of a look |
//! | `RefreshFault` 1 `Stranger`, 3 `Closed` | of `Window::refresh` and `Window::show`: nothing changes |
//! | `RefreshFault` 2 `NoMemory` | of the same: the watch has no verdicts until one of the two succeeds |
//!
//! An example of its use:
//!
//! ```
//! let (mut desk, mut windows) = open_site(&rt, 1, 1, 1, Replica::new(alloc))?;
//! let receipt = desk.intake(&rt, Draft::Merged { change: 101 });
//! let front = windows.pop().map(|mut window| window.front());
//! desk.end(&rt);
//! let stamp = receipt?.stamp().ok_or("a stamp")?;
//! let front = front.ok_or("a window")??;
//! assert_eq!(rt; front.reach(Row { site: 1, start: 1 }), stamp.seq());
//! ```
#![tactic(auto)]

mod branded;
mod desk;
mod fault;
mod law;
mod laws;
mod open;
mod pause;
mod receipt;
mod showing;
mod shown;
mod sight;
mod spares;
mod stage;
mod viewer;
mod watch;
mod window;

pub use branded::{BrandedReceipt, Naming};
pub use desk::Desk;
pub use fault::{DeskFault, OpenFault, RefreshFault, Stranger, WindowFault};
pub use laws::{later_journals_go_on, publishes_are_steps, stamps_are_above_all};
pub use open::open_site;
pub use pause::Pause;
pub use receipt::Receipt;
pub use viewer::Viewer;
pub use watch::Watch;
pub use window::Window;
