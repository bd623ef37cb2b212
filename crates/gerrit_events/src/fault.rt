//! The losses of a line.

ghost use Rattle.std.specs.Prelude.{◌≡◌};
ghost use Rattle.gerrit_events.specs.Fault.{number_of, name_of, named_key, text_of, event_key_of};

use review_ops::BodyFault;
use thiserror::Error;

/// The key of an event that a fault names: that of Gerrit's attribute, or `line` for the line itself.
#[derive(Clone, Copy, Debug, PartialEq, Eq)]
pub enum EventKey {
    /// The line is no JSON object.
    Line,
    /// The `type` of an event or of an approval.
    TypeName,
    /// An event's change, of which the number is wanted.
    Change,
    /// An event's patch set, of which the number is wanted.
    PatchSet,
    /// The commit message of the change.
    CommitMessage,
    /// The revisions of an event's Git parents.
    Parents,
    /// The account of a comment.
    Author,
    /// The account whose votes were deleted.
    Reviewer,
    /// The account of an approval in a query.
    By,
    /// The name of an account.
    Username,
    /// The value of an approval.
    Value,
    /// The change's number in a query.
    Number,
    /// The current patch set in a query, of which the number is wanted.
    CurrentPatchSet,
    /// A patch set among all in a query, of which the number is wanted.
    PatchSets,
    /// The changes on which one in a query depends.
    DependsOn,
    /// The status of a change in a query.
    Status,
}

impl EventKey {
    /// The key as it is printed.
    pub fn text(self) -> &'static str
        ensures { result.now ≡ text_of self }
    {
        match self {
            EventKey::Line => "line",
            EventKey::TypeName => "type",
            EventKey::Change => "change",
            EventKey::PatchSet => "patchSet",
            EventKey::CommitMessage => "commitMessage",
            EventKey::Parents => "parents",
            EventKey::Author => "author",
            EventKey::Reviewer => "reviewer",
            EventKey::By => "by",
            EventKey::Username => "username",
            EventKey::Value => "value",
            EventKey::Number => "number",
            EventKey::CurrentPatchSet => "currentPatchSet",
            EventKey::PatchSets => "patchSets",
            EventKey::DependsOn => "dependsOn",
            EventKey::Status => "status",
        }
    }
}

/// A loss: something of a line that can't be taken in.
#[derive(Clone, Copy, Debug, PartialEq, Eq, Error)]
pub enum EventFault {
    /// 1: the line is no event, lacks an attribute that its kind needs, or gives an invalid body.
    #[error("a bad event")]
    BadEvent(EventKey),
    /// 2: Gerrit dropped events, which have to be read again.
    #[error("events were dropped")]
    Dropped,
}

impl EventFault {
    /// The fault's number in reports.
    pub fn number(&self) -> u8
        ensures { result ≡ number_of self.now }
    {
        match self {
            EventFault::BadEvent(_) => 1,
            EventFault::Dropped => 2,
        }
    }

    /// The key that a bad event names.
    pub fn key(&self) -> Option<EventKey>
        ensures { result ≡ named_key self.now }
    {
        match self {
            EventFault::BadEvent(key) => Some(*key),
            EventFault::Dropped => None,
        }
    }

    /// The fault's name in reports, without the key.
    pub fn name(&self) -> &'static str
        ensures { result.now ≡ name_of self.now }
    {
        match self {
            EventFault::BadEvent(_) => "BadEvent",
            EventFault::Dropped => "Dropped",
        }
    }
}

/// The key whose value makes a body one that isn't good.
pub fn key_of(fault: BodyFault) -> EventKey
    ensures { result ≡ event_key_of fault }
{
    match fault {
        BodyFault::BadChange => EventKey::Change,
        BodyFault::BadSet => EventKey::PatchSet,
        BodyFault::BadLabel => EventKey::TypeName,
        BodyFault::BadVoter => EventKey::Username,
        BodyFault::LongMessage => EventKey::CommitMessage,
        BodyFault::BadParent => EventKey::Parents,
    }
}
