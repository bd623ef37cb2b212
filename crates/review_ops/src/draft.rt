//! What is done to a change, before it is checked.

ghost use Rattle.std.specs.Prelude.{◌≡◌, IfOk};
ghost use Rattle.std.specs.Option.{option_copied};
ghost use Rattle.review_ops.specs.Deed.{change_of, set_of, message_of, parent_of, label_of, voter_of, value_of};
ghost use Rattle.review_ops.specs.Draft.{deed_of};

use lattice_core::NoMemory;
use std::alloc::{Allocator, Global};

/// What someone says that was done to a change, before it is checked. Drafts are ordered as the kinds are listed, then
/// by fields.
#[derive(Debug, Drop)]
#[derive_where(PartialEq, Eq, PartialOrd, Ord)]
pub enum Draft<A: Allocator + Copy = Global> {
    /// A patch set is uploaded, with its commit message and the change of its Git parent, where it names one.
    PatchSet {
        change: u32,
        set: u32,
        message: String<A>,
        parent: Option<u32>,
    },
    /// A voter scores a label of a patch set.
    Vote {
        change: u32,
        set: u32,
        label: String<A>,
        voter: String<A>,
        value: i8,
    },
    /// A voter takes the score of a label back.
    Withdraw {
        change: u32,
        set: u32,
        label: String<A>,
        voter: String<A>,
    },
    /// The change is abandoned.
    Abandon {
        change: u32,
    },
    /// The abandoned change is restored.
    Restore {
        change: u32,
    },
    /// The change is merged.
    Merged {
        change: u32,
    },
}

impl<A: Allocator + Copy> Draft<A> {
    /// The change's number.
    pub fn change(&self) -> u32
        ensures { result ≡ change_of (deed_of self.now) }
    {
        match self {
            Draft::PatchSet { change, .. }
            | Draft::Vote { change, .. }
            | Draft::Withdraw { change, .. }
            | Draft::Abandon { change }
            | Draft::Restore { change }
            | Draft::Merged { change } => *change,
        }
    }

    /// The patch set's number, where the draft names one.
    pub fn set(&self) -> Option<u32>
        ensures { result ≡ set_of (deed_of self.now) }
    {
        match self {
            Draft::PatchSet { set, .. } | Draft::Vote { set, .. } | Draft::Withdraw { set, .. } =>
                Some(*set),
            _ => None,
        }
    }

    /// The commit message of a patch set.
    pub fn message(&self) -> Option<&str>
        ensures { option_copied result ≡ message_of (deed_of self.now) }
    {
        match self {
            Draft::PatchSet { message, .. } => Some(message.as_str()),
            _ => None,
        }
    }

    /// The change of a patch set's Git parent, where it names one.
    pub fn parent(&self) -> Option<u32>
        ensures { result ≡ parent_of (deed_of self.now) }
    {
        match self {
            Draft::PatchSet { parent, .. } => *parent,
            _ => None,
        }
    }

    /// The label of a vote or a withdrawal.
    pub fn label(&self) -> Option<&str>
        ensures { option_copied result ≡ label_of (deed_of self.now) }
    {
        match self {
            Draft::Vote { label, .. } | Draft::Withdraw { label, .. } => Some(label.as_str()),
            _ => None,
        }
    }

    /// Who votes or withdraws a vote.
    pub fn voter(&self) -> Option<&str>
        ensures { option_copied result ≡ voter_of (deed_of self.now) }
    {
        match self {
            Draft::Vote { voter, .. } | Draft::Withdraw { voter, .. } => Some(voter.as_str()),
            _ => None,
        }
    }

    /// The value of a vote.
    pub fn value(&self) -> Option<i8>
        ensures { result ≡ value_of (deed_of self.now) }
    {
        match self {
            Draft::Vote { value, .. } => Some(*value),
            _ => None,
        }
    }

    /// An equal draft, with texts of its own on the same allocator. It costs O(n) for n bytes of its texts.
    pub fn copy(&self) -> Result<Draft<A>, NoMemory>
        ensures { IfOk result (λ copied. deed_of copied ≡ deed_of self.now) }
    {
        match self {
            Draft::PatchSet {
                change,
                set,
                message,
                parent,
            } => Ok(Draft::PatchSet {
                change: *change,
                set: *set,
                message: message.clone()?,
                parent: *parent,
            }),
            Draft::Vote {
                change,
                set,
                label,
                voter,
                value,
            } => Ok(Draft::Vote {
                change: *change,
                set: *set,
                label: label.clone()?,
                voter: voter.clone()?,
                value: *value,
            }),
            Draft::Withdraw {
                change,
                set,
                label,
                voter,
            } => Ok(Draft::Withdraw {
                change: *change,
                set: *set,
                label: label.clone()?,
                voter: voter.clone()?,
            }),
            Draft::Abandon { change } => Ok(Draft::Abandon { change: *change }),
            Draft::Restore { change } => Ok(Draft::Restore { change: *change }),
            Draft::Merged { change } => Ok(Draft::Merged { change: *change }),
        }
    }
}
