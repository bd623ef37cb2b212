//! Joins and copies of lattice values.

use super::turns::{Memory, Seen};
use lattice_core::Join;

/// Whether two values are the same, where there are both.
pub(super) fn is<J: Join>(value: &J, wanted: Option<J>) -> bool {
    wanted.is_some_and(|wanted| value.same(&wanted))
}

/// Whether a value lies between two others, where there are both.
pub(super) fn lies_between<J: Join>(low: Option<J>, value: &J, high: Option<J>) -> bool {
    low.is_some_and(|low| value.covers(&low)) && high.is_some_and(|high| high.covers(value))
}

/// Whether memory sufficed for the value to join another one.
fn join<J: Join>(value: &mut J, other: Option<J>) -> bool {
    other.is_some_and(|other| value.join(other).is_ok())
}

/// What is seen where a value joins another one, of which `whole` is the join.
fn seen_of_join<J: Join>(memory: &Memory, mut value: J, other: J, whole: &J, granted: u32) -> Seen {
    let (low, again) = (value.copy().ok(), other.copy().ok());
    memory.refuse_after(granted);
    let failed = value.join(other).is_err();
    let refused = memory.grant_all();
    let is_between = whole.covers(&value) && low.is_some_and(|low| value.covers(&low));
    let is_whole = value.same(whole);
    Seen {
        failed,
        refused,
        stated: is_between && is_whole != failed,
        whole: join(&mut value, again) && value.same(whole),
    }
}

/// The same, where there are all three.
pub(super) fn joined<J: Join>(
    memory: &Memory,
    value: Option<J>,
    other: Option<J>,
    whole: Option<J>,
    granted: u32,
) -> Option<Seen> {
    let whole = whole?;
    let other = other?;
    Some(seen_of_join(memory, value?, other, &whole, granted))
}

/// What is seen of a copy of a value, which stays as it was made a second time.
fn seen_of_copy<J: Join>(memory: &Memory, value: &J, wanted: Option<J>, granted: u32) -> Seen {
    memory.refuse_after(granted);
    let copy = value.copy().ok();
    let refused = memory.grant_all();
    let failed = copy.is_none();
    let is_right = failed || is(value, copy);
    Seen {
        failed,
        refused,
        stated: is_right && is(value, wanted),
        whole: is(value, value.copy().ok()),
    }
}

/// The same, where there is the value.
pub(super) fn copied<J: Join>(
    memory: &Memory,
    value: Option<J>,
    wanted: Option<J>,
    granted: u32,
) -> Option<Seen> {
    Some(seen_of_copy(memory, &value?, wanted, granted))
}
