//! What Gerrit says of a change beside its votes, as votes of a reserved voter.

ghost use Rattle.std.specs.Prelude.{◌≡◌, ◌++◌, IfOk, OnOk, option_map};
ghost use Rattle.gerrit_events.specs.Marks.{has_outdated_parent, if_so, is_outdated, is_outdated_on, is_private, is_wip, mark_label};
ghost use Rattle.gerrit_events.specs.Marks.{marks_in, says};
ghost use Rattle.gerrit_events.specs.Trees.{data_in};

use super::kind::Kind;
use super::line::Line;
use super::tree::{member, truth};
use super::value::{listed, under};
use json::Value;
use lattice_core::NoMemory;
use std::alloc::Global;

/// The reserved voter. Votes of a Gerrit account with this name are refused.
pub const RESERVED_VOTER: &str = "gerrit";

/// What Gerrit says of a change, for which the reserved voter votes -1 on a label.
#[derive(Clone, Copy, Debug, PartialEq, Eq)]
pub enum Mark {
    /// It is work in progress.
    WorkInProgress,
    /// It is private.
    Private,
    /// A change that it depends on has a later patch set.
    OutdatedParent,
}

impl Mark {
    /// The label, in lower case.
    pub fn label(self) -> &'static str
        ensures { result.now ≡ mark_label self }
    {
        match self {
            Mark::WorkInProgress => "work-in-progress",
            Mark::Private => "private",
            Mark::OutdatedParent => "outdated-parent",
        }
    }
}

impl<'v, 'a> Line<'v, 'a> {
    /// The marks that are true of the change.
    pub fn marks(&self, alloc: Global) -> Result<Vec<Mark>, NoMemory>
        ensures { IfOk result (λ marks. marks.items ≡ marks_in self.now.kind (data_in self.now.value.now)) }
    {
        let mut marks = Vec::new(alloc);
        add_mark(&mut marks, Mark::WorkInProgress, self.is_wip())?;
        add_mark(&mut marks, Mark::Private, self.is_private())?;
        add_mark(&mut marks, Mark::OutdatedParent, self.is_outdated())?;
        Ok(marks)
    }

    /// Whether the change is work in progress.
    pub fn is_wip(&self) -> bool
        ensures { result ≡ is_wip self.now.kind (data_in self.now.value.now) }
    {
        says(true, under("wip", self.change_part()))
    }

    /// Whether the change is private.
    pub fn is_private(&self) -> bool
        ensures { result ≡ is_private self.now.kind (data_in self.now.value.now) }
    {
        says(true, under("private", self.change_part()))
    }

    /// Whether a parent has a later patch set, which only a query says.
    fn is_outdated(&self) -> bool
        ensures { result ≡ is_outdated self.now.kind (data_in self.now.value.now) }
    {
        match self.kind {
            Kind::QueryLine => has_outdated_parent(self.value),
            _ => false,
        }
    }
}

/// Whether one of the changes that a row depends on has a later patch set.
fn has_outdated_parent(line: &Value<'_>) -> bool
    ensures { result ≡ has_outdated_parent (data_in line.now) }
{
    let parents = listed(member(line, "dependsOn"));
    for parent in parents {
        if is_outdated_on(parent) {
            return true;
        }
    }
    false
}

/// Whether a change has a later patch set than the one that another is based on.
fn is_outdated_on(parent: &Value<'_>) -> bool
    ensures { result ≡ is_outdated_on (data_in parent.now) }
{
    says(false, member(parent, "isCurrentPatchSet"))
}

/// Whether a value is this truth value.
pub fn says(wanted: bool, found: Option<&Value<'_>>) -> bool
    ensures { result ≡ says wanted (option_map (λ value. data_in value.now) found.entry) }
{
    let Some(value) = found else {
        return false;
    };
    match truth(value) {
        None => false,
        Some(truth) => truth == wanted,
    }
}

/// Adds a mark, if it is true of the change.
fn add_mark(marks: &mut Vec<Mark>, mark: Mark, is_so: bool) -> Result<(), NoMemory>
    ensures { OnOk result (marks.new.items ≡ marks.old.items ++ if_so is_so mark) }
{
    if is_so {
        marks.push(mark)?;
    }
    Ok(())
}
