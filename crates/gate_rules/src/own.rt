//! How an item compares with the conditions of a gate.

ghost use Rattle.std.specs.Prelude.{◌≡◌, ◌≢◌, ◌==◌, ℕ, Some, MatchBool, string_bytes, map};
ghost use Rattle.std.specs.Ordering.{int_eq};
ghost use Rattle.std.specs.Str.{bytes_eq};
ghost use Rattle.change_core.specs.VoteShown.{approval_shown};
ghost use Rattle.gate_rules.specs.Own.{some, same_flag, matches, standing_of};

use super::gate::Pattern;
use change_core::{Approval, ChangeState};
use std::marker::Model;

/// What the conditions of a gate compare of an item: its change, the current patch set of that, and its own patch set.
#[derive(Drop)]
pub struct Standing<'a> {
    change: &'a ChangeState,
    current: u32,
    set: u32,
}

impl<'a> Model for Standing<'a> {
    ghost use Rattle.gate_rules.specs.Own.{ItemStanding, standing_of};

    ghost Value = { ItemStanding };

    ghost view = { λ standing. standing_of standing.change.now standing.current standing.set };
}

impl<'a> Standing<'a> {
    /// The standing of a patch set of the change, by its current patch set.
    pub fn new(change: &'a ChangeState, current: u32, set: u32) -> Standing<'a>
        ensures { result ≡ standing_of change.now current set }
    {
        Standing {
            change,
            current,
            set,
        }
    }

    /// Whether the change is open (`asked` is true) or closed (`asked` is false).
    pub fn open_is(&self, asked: bool) -> bool
        ensures { result ≡ same_flag self.now.is_open asked }
    {
        self.change.is_open() == asked
    }

    /// Whether the patch set is the current one (`asked` is true) or not (`asked` is false).
    pub fn current_is(&self, asked: bool) -> bool
        ensures { result ≡ same_flag self.now.is_current asked }
    {
        (self.set == self.current) == asked
    }

    /// Whether the status of the change is among these.
    pub fn status_among(&self, texts: &[String]) -> bool
        ensures { result ≡ some (bytes_eq self.now.status) (map string_bytes texts.now) }
    {
        is_among(texts, self.change.status().name())
    }

    /// Whether some approval on the current patch set matches the pattern.
    pub fn meets(&self, pattern: &Pattern) -> bool
        ensures { result ≡ some (matches pattern.now) self.now.approvals }
    {
        for approval in self.change.approvals(self.current) {
            if pattern.matches(&approval) {
                return true;
            }
        }
        false
    }
}

/// Whether a comparison has the wanted result.
pub fn came_out(compared: Option<bool>, wanted: bool) -> bool
    ensures { MatchBool result (compared ≡ Some wanted) (compared ≢ Some wanted) }
{
    match compared {
        Some(true) => wanted,
        Some(false) => !wanted,
        None => false,
    }
}

/// Whether one of these values is that of the approval.
pub fn has_value(values: &[i8], approval: &Approval<'_>) -> bool
    ensures { result ≡ some (λ value. int_eq value approval.now.value) values.now }
{
    for value in values {
        if *value == approval.value {
            return true;
        }
    }
    false
}

/// Whether a status is one of the texts.
pub fn is_among(texts: &[String], status: &str) -> bool
    ensures { result ≡ some (bytes_eq status.now) (map string_bytes texts.now) }
{
    for text in texts {
        if status == text.as_str() {
            return true;
        }
    }
    false
}
