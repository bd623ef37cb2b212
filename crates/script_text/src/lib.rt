//! The texts of scripts: what their lines ask of a world of sites.
//!
//! Its tests are in the crate `text_tests`.
//!
//! It is a crate of its own so that the parser of scripts has a contract like those of the other texts. Not taken:
//! JSON, since scripts are written by hand.
//!
//! A script is read line by line. Empty lines and lines that begin with `#` are skipped. The first of the others is
//! `sites N`, with N from 1 to 64, and each later one is one of these, with one blank between its fields:
//!
//! | Line | What it asks for |
//! |---|---|
//! | `intake SITE BODY` | a site takes in a body |
//! | `send SITE FRONT` | a site packs what a front lacks |
//! | `send SITE @RECEIVER` | a site packs what the front of another lacks |
//! | `deliver PACKET SITE` | a packet comes to a site |
//! | `save SITE` | a site saves its record |
//! | `restart SITE START` | a site starts again from what it saved |
//! | `state SITE`, `front SITE` | the state or the front of a site is printed |
//! | `ready SITE` | the report of a site is printed, under the gate |
//!
//! An example of its use:
//!
//! ```
//! let script = read_script(alloc, b"sites 2\nfront 1\n", None)?;
//! assert_eq!(rt; script.sites, 2);
//! assert_eq!(rt; script.steps.len(), 1);
//! ```
#![tactic(auto)]

mod fault;
mod fields;
mod laws;
mod script;
mod script_lines;

pub use fault::ScriptFault;
pub use laws::scripts_have_one_reading;
pub use script::{Script, Step, read_script};
