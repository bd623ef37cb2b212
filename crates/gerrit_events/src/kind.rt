//! The kinds of lines.

ghost use Rattle.std.specs.Prelude.{◌≡◌};
ghost use Rattle.gerrit_events.specs.Kinds.{kind_named, line_kind, change_key, set_key, account_key};
ghost use Rattle.gerrit_events.specs.Trees.{data_in};

use super::fault::EventKey;
use super::tree::{member, text};
use json::Value;

/// What a line is: one of Gerrit's events, or a line of its query.
#[derive(Clone, Copy, Debug, PartialEq, Eq)]
pub enum Kind {
    PatchSetCreated,
    CommentAdded,
    VoteDeleted,
    ReviewerDeleted,
    ChangeAbandoned,
    ChangeRestored,
    ChangeMerged,
    ChangeDeleted,
    WipStateChanged,
    PrivateStateChanged,
    DroppedOutput,
    QueryLine,
    QueryStats,
    QueryError,
    OtherEvent,
}

impl Kind {
    /// The kind of a line; none where its `type` is no text.
    pub fn of(line: &Value<'_>) -> Option<Kind>
        ensures { result ≡ line_kind (data_in line.now) }
    {
        match member(line, "type") {
            None => Some(Kind::QueryLine),
            Some(name) => Some(Kind::named(text(name)?)),
        }
    }

    /// The kind that a `type` names.
    fn named(name: &str) -> Kind
        ensures { result ≡ kind_named name.now }
    {
        match name {
            "patchset-created" => Kind::PatchSetCreated,
            "comment-added" => Kind::CommentAdded,
            "vote-deleted" => Kind::VoteDeleted,
            "reviewer-deleted" => Kind::ReviewerDeleted,
            "change-abandoned" => Kind::ChangeAbandoned,
            "change-restored" => Kind::ChangeRestored,
            "change-merged" => Kind::ChangeMerged,
            "change-deleted" => Kind::ChangeDeleted,
            "wip-state-changed" => Kind::WipStateChanged,
            "private-state-changed" => Kind::PrivateStateChanged,
            "dropped-output" => Kind::DroppedOutput,
            "stats" => Kind::QueryStats,
            "error" => Kind::QueryError,
            _ => Kind::OtherEvent,
        }
    }

    /// The key that is named where the change has no number.
    pub fn change_key(self) -> EventKey
        ensures { result ≡ change_key self }
    {
        match self {
            Kind::QueryLine => EventKey::Number,
            _ => EventKey::Change,
        }
    }

    /// The key that is named where the patch set has no number.
    pub fn set_key(self) -> EventKey
        ensures { result ≡ set_key self }
    {
        match self {
            Kind::QueryLine => EventKey::CurrentPatchSet,
            _ => EventKey::PatchSet,
        }
    }

    /// The key that is named where a voter has no name.
    pub fn account_key(self) -> EventKey
        ensures { result ≡ account_key self }
    {
        match self {
            Kind::QueryLine => EventKey::By,
            Kind::CommentAdded => EventKey::Author,
            _ => EventKey::Reviewer,
        }
    }
}
