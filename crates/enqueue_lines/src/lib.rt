//! The lines that hand items to Zuul: reads what a site prints, and writes a command for each item that becomes ready.
//!
//! Its tests are in the crate `enqueue_tests`.
//!
//! It is a crate of its own so that its output is proved without sites: after each group, the items that are ready and
//! weren't before, each once, in gate order. Not taken: a shell script over the lines, which would have to keep the
//! list of ready items and to quote names of projects; regular expressions, since a line is accepted only if it is
//! exactly the text that a site writes.
//!
//! A [`Template`] is the line to write for an item, [`Places`] are the projects and branches of changes, and an
//! [`ItemSet`] has the items that were handed over before. [`hand_over`] reads a source and writes to a drain, group by
//! group.
//!
//! An example of its use:
//!
//! ```
//! let template = Template::read(alloc, "enqueue {project} {change},{set}")?;
//! let query = b"{\"number\":101,\"project\":\"tools\",\"branch\":\"main\"}\n".as_slice();
//! let pipeline = Pipeline {
//!     tenant: "",
//!     name: "gate",
//!     template: &template,
//!     projects: &Projects::all(),
//!     places: &read_places(alloc, query)?,
//! };
//! let mut reports = Ends::new(b"ready 101,1\nend 1 0\n".as_slice());
//! let mut output = Ends::new(Vec::new(alloc));
//! let mut errors = Ends::new(Vec::new(alloc));
//! let handed = ItemSet::new(alloc);
//! hand_over(alloc, &pipeline, handed, &mut reports, &mut output, &mut errors)?;
//! assert_eq!(rt; output.get_ref().as_slice(), b"enqueue tools 101,1\n".as_slice());
//! ```
#![tactic(auto)]

mod fault;
mod handed;
mod handing;
mod items;
mod pipeline;
mod places;
mod quoting;
mod run;
mod shell;
mod site_line;
mod template;

pub use fault::{EnqueueFault, TemplateFault};
pub use handed::read_handed;
pub use handing::{Handing, ready_items_are_handed_over_once};
pub use items::ItemSet;
pub use pipeline::{Pipeline, Texts};
pub use places::{Places, read_places};
pub use quoting::{add_quoted, quoted_words_are_read_again};
pub use run::hand_over;
pub use site_line::{SiteLine, read_item, read_line};
pub use template::{
    Field, Piece, Template, Values, templates_have_one_reading, values_are_read_outside_quotes,
};
