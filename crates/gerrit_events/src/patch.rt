//! The patch set that a line shows.

ghost use Rattle.std.specs.Prelude.{◌≡◌, IfOk, option_map, string_bytes};
ghost use Rattle.gerrit_events.specs.PatchShown.{patch_shown};
ghost use Rattle.gerrit_events.specs.Patches.{revision_of};

use lattice_core::NoMemory;
use std::alloc::Global;

/// A patch set as a line shows it.
#[derive(Clone, Copy, Drop)]
pub struct Patch<'a> {
    pub change: u32,
    pub set: u32,
    pub message: &'a str,
    pub project: &'a str,
    pub commit: Option<&'a str>,
}

impl<'a> Patch<'a> {
    /// Its revision, where its commit is said.
    pub fn revision(&self, alloc: Global) -> Result<Option<String>, NoMemory>
        ensures { IfOk result (λ revision. option_map string_bytes revision ≡ (patch_shown self.now).revision) }
    {
        match self.commit {
            None => Ok(None),
            Some(commit) => Ok(Some(revision_of(alloc, self.project, commit)?)),
        }
    }
}

/// A commit in a project, as one text: the project, an LF and the commit.
pub fn revision_of(alloc: Global, project: &str, commit: &str) -> Result<String, NoMemory>
    ensures { IfOk result (λ revision. string_bytes revision ≡ revision_of project.now commit.now) }
{
    let mut revision = String::from_str(alloc, project)?;
    revision.push_str("\n")?;
    revision.push_str(commit)?;
    Ok(revision)
}
