//! The projects that a command names.

use console::{Console, Refusal, read_message};
use gerrit_events::Projects;
use lattice_core::NoMemory;
use std::alloc::Global;

/// The projects of these names and those that a file lists, one a line; all where neither is named.
pub fn read_projects<'n, C: Console>(
    alloc: Global,
    names: Vec<String>,
    file: Option<&'n str>,
    console: &mut C,
) -> Result<Projects, Refusal<'n>> {
    let mut names = names;
    if names.is_empty() && file.is_none() {
        return Ok(Projects::all());
    }
    if let Some(name) = file {
        let text = read_message(alloc, name, console)?;
        let Ok(()) = add_names(alloc, &mut names, text.as_str()) else {
            return Err(Refusal::Memory);
        };
    }
    Ok(Projects::named(names))
}

/// Adds the names of a text, one a line. Empty lines and lines that begin with `#` are passed over.
fn add_names(alloc: Global, names: &mut Vec<String>, text: &str) -> Result<(), NoMemory> {
    for line in text.split('\n') {
        let name = line.strip_suffix('\r').unwrap_or(line);
        if !name.is_empty() && !name.starts_with('#') {
            names.push(String::from_str(alloc, name)?)?;
        }
    }
    Ok(())
}
