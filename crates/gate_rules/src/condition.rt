//! The conditions of a gate, as an item breaks them.

ghost use Rattle.std.specs.Prelude.{◌≡◌, ◌≤◌, length};
ghost use Rattle.gate_rules.specs.Words.{clause_key, clause_place, side_name};

/// Which of the two sets of conditions a condition belongs to.
#[derive(Clone, Copy, Debug, PartialEq, Eq)]
pub enum Side {
    /// What an item must meet.
    Require,
    /// What an item must not meet.
    Reject,
}

/// A condition of a side.
#[derive(Clone, Copy, Debug, PartialEq, Eq)]
pub enum Clause {
    /// `open`.
    OpenState,
    /// `current-patchset`.
    CurrentSet,
    /// `status`.
    StatusIn,
    /// The pattern at this place among the approvals, from 1.
    Approval(usize),
}

/// A condition that an item breaks.
#[derive(Clone, Copy, Debug, PartialEq, Eq)]
pub struct Condition {
    pub side: Side,
    pub clause: Clause,
}

impl Side {
    /// The key of the side in a gate file.
    pub fn name(self) -> &'static str
        ensures name { result.now ≡ side_name self }
        ensures short { length result.now ≤ 7 }
    {
        match self {
            Side::Require => "require",
            Side::Reject => "reject",
        }
    }
}

impl Clause {
    /// The key of the clause among a side's conditions in a gate file.
    pub fn key(self) -> &'static str
        ensures key { result.now ≡ clause_key self }
        ensures short { length result.now ≤ 16 }
    {
        match self {
            Clause::OpenState => "open",
            Clause::CurrentSet => "current-patchset",
            Clause::StatusIn => "status",
            Clause::Approval(_) => "approval",
        }
    }

    /// Which of the patterns under its key an approval is, from 1. Other clauses have none.
    pub fn place(self) -> Option<usize>
        ensures { result ≡ clause_place self }
    {
        match self {
            Clause::Approval(number) => Some(number),
            Clause::OpenState | Clause::CurrentSet | Clause::StatusIn => None,
        }
    }
}
