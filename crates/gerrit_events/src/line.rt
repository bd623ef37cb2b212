//! A line of a known kind, and where its attributes are.

ghost use Rattle.std.specs.Prelude.{◌≡◌, [], IfOk, map, option_map};
ghost use Rattle.std.specs.Option.{unwrap_or};
ghost use Rattle.gerrit_events.specs.Claims.{parents_key};
ghost use Rattle.gerrit_events.specs.Kinds.{account_part, approvals_part, change_part, set_part};
ghost use Rattle.gerrit_events.specs.Parts.{part_by};
ghost use Rattle.gerrit_events.specs.Patches.{brought_by, change_in, parents_part, patch_in, project_in, set_in};
ghost use Rattle.gerrit_events.specs.Patches.{unless_brought, was_brought};
ghost use Rattle.gerrit_events.specs.PatchShown.{patch_shown};
ghost use Rattle.gerrit_events.specs.Trees.{data_in};
ghost use Rattle.gerrit_events.specs.Values.{text_in};

use super::fault::EventKey;
use super::kind::Kind;
use super::known::Revisions;
use super::mark::says;
use super::part::Part;
use super::patch::Patch;
use super::tree::member;
use super::value::{listed, number_in, text_in, under};
use json::Value;
use lattice_core::NoMemory;
use std::alloc::Global;

/// A line of a known kind.
#[derive(Clone, Copy)]
pub struct Line<'v, 'a> {
    pub kind: Kind,
    pub value: &'v Value<'a>,
}

impl<'v, 'a> Line<'v, 'a> {
    /// The change attribute.
    pub fn change_part(&self) -> Option<&'v Value<'a>>
        ensures { option_map (λ value. data_in value.now) result
            ≡ change_part self.now.kind (data_in self.now.value.now) }
    {
        match self.kind {
            Kind::QueryLine => Some(self.value),
            _ => member(self.value, "change"),
        }
    }

    /// The patch set attribute.
    pub fn set_part(&self) -> Option<&'v Value<'a>>
        ensures { option_map (λ value. data_in value.now) result ≡ set_part self.now.kind (data_in self.now.value.now) }
    {
        match self.kind {
            Kind::QueryLine => member(self.value, "currentPatchSet"),
            _ => member(self.value, "patchSet"),
        }
    }

    /// The account attribute of one who voted.
    pub fn account_part(&self, approval: &'v Value<'a>) -> Option<&'v Value<'a>>
        ensures { option_map (λ value. data_in value.now) result
            ≡ account_part self.now.kind (data_in self.now.value.now) (data_in approval.entry.now) }
    {
        match self.kind {
            Kind::QueryLine => member(approval, "by"),
            Kind::CommentAdded => member(self.value, "author"),
            _ => member(self.value, "reviewer"),
        }
    }

    /// The attribute with the approvals of the patch set.
    pub fn approvals_part(&self) -> Option<&'v Value<'a>>
        ensures { option_map (λ value. data_in value.now) result
            ≡ approvals_part self.now.kind (data_in self.now.value.now) }
    {
        match self.kind {
            Kind::QueryLine => member(member(self.value, "currentPatchSet")?, "approvals"),
            _ => member(self.value, "approvals"),
        }
    }

    /// The attributes that name parents.
    pub fn parents_part(&self) -> &'v [Value<'a>]
        ensures { map data_in result.now ≡ parents_part self.now.kind (data_in self.now.value.now) }
    {
        match self.kind {
            Kind::QueryLine => listed(member(self.value, "dependsOn")),
            _ => listed(under("parents", self.set_part())),
        }
    }

    /// The key that names parents.
    pub fn parents_key(&self) -> EventKey
        ensures { result ≡ parents_key self.now.kind }
    {
        match self.kind {
            Kind::QueryLine => EventKey::DependsOn,
            _ => EventKey::Parents,
        }
    }
}

impl<'v, 'a> Line<'v, 'a> {
    /// What the line is in what Gerrit writes.
    pub fn part(&self) -> Part
        ensures { result ≡ part_by self.now.kind (data_in self.now.value.now) }
    {
        match self.kind {
            Kind::DroppedOutput => Part::Event(None),
            Kind::QueryLine => Part::Row(self.change()),
            Kind::QueryStats => Part::Stats {
                more: says(true, member(self.value, "moreChanges")),
            },
            Kind::QueryError => Part::Error,
            _ => Part::Event(self.change()),
        }
    }

    /// The number of the change.
    fn change(&self) -> Option<u32>
        ensures { result ≡ change_in self.now.kind (data_in self.now.value.now) }
    {
        number_in(under("number", self.change_part()))
    }

    /// The patch set of the line, where it has all that is needed, by its two numbers and attributes.
    pub fn patch(
        &self,
        change: Option<u32>,
        set: Option<u32>,
        change_found: Option<&'v Value<'a>>,
        set_found: Option<&'v Value<'a>>,
    ) -> Option<Patch<'a>>
        requires change { change ≡ change_in self.now.kind (data_in self.now.value.now) }
        requires set { set ≡ set_in self.now.kind (data_in self.now.value.now) }
        requires change_part { option_map (λ value. data_in value.now) change_found
            ≡ change_part self.now.kind (data_in self.now.value.now) }
        requires set_part { option_map (λ value. data_in value.now) set_found
            ≡ set_part self.now.kind (data_in self.now.value.now) }
        ensures { option_map patch_shown result ≡ patch_in self.now.kind (data_in self.now.value.now) }
    {
        let change = change?;
        let set = set?;
        let message = text_in(under("commitMessage", change_found))?;
        let commit = text_in(under("revision", set_found));
        Some(Patch {
            change,
            set,
            message,
            project: text_or_none(under("project", change_found)),
            commit,
        })
    }

    /// The project of the change; where it isn't said, the empty text.
    pub fn project(&self) -> &'a str
        ensures { result.now ≡ project_in self.now.kind (data_in self.now.value.now) }
    {
        text_or_none(under("project", self.change_part()))
    }

    /// The patch set that the line brings, by that which it has.
    pub fn brought(
        &self,
        alloc: Global,
        known: &Revisions,
        patch: Option<Patch<'a>>,
    ) -> Result<Option<Patch<'a>>, NoMemory>
        requires { option_map patch_shown patch ≡ patch_in self.now.kind (data_in self.now.value.now) }
        ensures { IfOk result (λ brought. option_map patch_shown brought
            ≡ brought_by known.now self.now.kind (data_in self.now.value.now)) }
    {
        match self.kind {
            Kind::PatchSetCreated | Kind::QueryLine => Ok(patch),
            Kind::DroppedOutput | Kind::QueryStats | Kind::QueryError => Ok(None),
            _ => match patch {
                None => Ok(None),
                Some(patch) => unless_brought(alloc, known, patch),
            },
        }
    }
}

/// The text that a value is; where it is none, the empty text.
fn text_or_none<'a>(found: Option<&Value<'a>>) -> &'a str
    ensures { result.now ≡ unwrap_or (text_in (option_map (λ value. data_in value.now) found.entry)) [] }
{
    match text_in(found) {
        Some(text) => text,
        None => "",
    }
}

/// The patch set, unless this run has brought it.
fn unless_brought<'a>(
    alloc: Global,
    known: &Revisions,
    patch: Patch<'a>,
) -> Result<Option<Patch<'a>>, NoMemory>
    ensures { IfOk result (λ brought. option_map patch_shown brought
        ≡ unless_brought known.now (patch_shown patch.entry)) }
{
    if was_brought(alloc, known, &patch)? {
        Ok(None)
    } else {
        Ok(Some(patch))
    }
}

/// Whether this run has brought the patch set.
fn was_brought(alloc: Global, known: &Revisions, patch: &Patch<'_>) -> Result<bool, NoMemory>
    ensures { IfOk result (λ brought. brought ≡ was_brought known.now (patch_shown patch.now)) }
{
    let Some(revision) = patch.revision(alloc)? else {
        return Ok(false);
    };
    match known.place_of(revision.as_str()) {
        None => Ok(false),
        Some((change, set)) => Ok(change == patch.change && set == patch.set),
    }
}
