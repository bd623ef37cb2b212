//! Maps and lists of lattice values.

use super::turns::{Call, Memory, Seen, assert_each};
use super::values::{copied, is, joined, lies_between};
use lattice_core::{Flag, Join, JoinMap, join_all};

/// Flags by number.
type Flags<'a> = JoinMap<u32, Flag, &'a Memory>;

/// Maps of flags by number.
type Nested<'a> = JoinMap<u8, Flags<'a>, &'a Memory>;

/// Raises the flags from `from` up to `end`: the first one that memory was refused for, or `end`.
fn raise(flags: &mut Flags<'_>, from: u32, end: u32) -> u32 {
    for number in from..end {
        if flags.put(number, Flag::new(true)).is_err() {
            return number;
        }
    }
    end
}

/// The flags from `from` up to `end`.
fn raised(memory: &Memory, from: u32, end: u32) -> Option<Flags<'_>> {
    let mut flags = JoinMap::new(memory);
    let reached = raise(&mut flags, from, end);
    if reached == end { Some(flags) } else { None }
}

/// Puts of flags, one after the other.
#[derive(Clone, Copy)]
struct Puts;

impl Call for Puts {
    fn seen(self, memory: &Memory, granted: u32) -> Option<Seen> {
        Some(put(memory, granted))
    }
}

/// What is seen of the puts of forty flags.
fn put(memory: &Memory, granted: u32) -> Seen {
    let mut flags = JoinMap::new(memory);
    memory.refuse_after(granted);
    let reached = raise(&mut flags, 0, 40);
    let refused = memory.grant_all();
    let stated = is(&flags, raised(memory, 0, reached));
    raise(&mut flags, reached, 40);
    Seen {
        failed: reached < 40,
        refused,
        stated,
        whole: is(&flags, raised(memory, 0, 40)),
    }
}

/// The join of two maps.
#[derive(Clone, Copy)]
struct Joins;

impl Call for Joins {
    fn seen(self, memory: &Memory, granted: u32) -> Option<Seen> {
        let (flags, other) = (raised(memory, 0, 12), raised(memory, 8, 40));
        joined(memory, flags, other, raised(memory, 0, 40), granted)
    }
}

/// A map of maps that raises the flags up to `end` at one key.
fn nested(memory: &Memory, end: u32) -> Option<Nested<'_>> {
    let mut maps = JoinMap::new(memory);
    maps.put(5u8, raised(memory, 0, end)?).ok()?;
    Some(maps)
}

/// The join of flags at a key of a map of maps, which is new or has the first flags.
#[derive(Clone, Copy)]
struct JoinsAt {
    is_new: bool,
}

/// The map of maps before the join.
fn before(memory: &Memory, is_new: bool) -> Option<Nested<'_>> {
    match is_new {
        true => Some(JoinMap::new(memory)),
        false => nested(memory, 12),
    }
}

impl Call for JoinsAt {
    fn seen(self, memory: &Memory, granted: u32) -> Option<Seen> {
        let flags = raised(memory, 0, 40)?;
        let maps = before(memory, self.is_new)?;
        Some(joined_at(memory, maps, flags, self.is_new, granted))
    }
}

/// Whether memory sufficed for all flags to be joined at the key of the map of maps.
fn join_at<'a>(memory: &'a Memory, maps: &mut Nested<'a>) -> bool {
    match raised(memory, 0, 40) {
        Some(flags) => maps.join_at(5u8, flags).is_ok(),
        None => false,
    }
}

/// What is seen where all flags are joined at the key of the map of maps.
fn joined_at<'a>(
    memory: &'a Memory,
    mut maps: Nested<'a>,
    flags: Flags<'a>,
    is_new: bool,
    granted: u32,
) -> Seen {
    memory.refuse_after(granted);
    let failed = maps.join_at(5u8, flags).is_err();
    let refused = memory.grant_all();
    let is_whole = is(&maps, nested(memory, 40));
    let is_between = lies_between(before(memory, is_new), &maps, nested(memory, 40));
    let is_there = !maps.is_empty();
    let is_joined = join_at(memory, &mut maps);
    Seen {
        failed,
        refused,
        stated: is_between && is_whole != failed && is_there != (is_new && failed),
        whole: is_joined && is(&maps, nested(memory, 40)),
    }
}

/// A copy of a map.
#[derive(Clone, Copy)]
struct Copies;

impl Call for Copies {
    fn seen(self, memory: &Memory, granted: u32) -> Option<Seen> {
        copied(
            memory,
            raised(memory, 0, 40),
            raised(memory, 0, 40),
            granted,
        )
    }
}

/// Three maps that join to all flags.
fn thirds(memory: &Memory) -> Option<Vec<Flags<'_>, &Memory>> {
    let mut states = Vec::new(memory);
    for (from, end) in [(0, 12), (8, 20), (16, 40)] {
        states.push(raised(memory, from, end)?).ok()?;
    }
    Some(states)
}

/// The join of a list of maps.
#[derive(Clone, Copy)]
struct Lists;

impl Call for Lists {
    fn seen(self, memory: &Memory, granted: u32) -> Option<Seen> {
        let states = thirds(memory)?;
        Some(listed(memory, states, granted))
    }
}

/// The join of a list of maps, where memory suffices for it.
fn join_of<'a>(states: Vec<Flags<'a>, &'a Memory>) -> Option<Flags<'a>> {
    join_all(states).ok().flatten()
}

/// Whether these are all flags.
fn are_all<'a>(memory: &'a Memory, flags: Option<Flags<'a>>) -> bool {
    match flags {
        Some(flags) => is(&flags, raised(memory, 0, 40)),
        None => false,
    }
}

/// What is seen of the join of the maps.
fn listed<'a>(memory: &'a Memory, states: Vec<Flags<'a>, &'a Memory>, granted: u32) -> Seen {
    memory.refuse_after(granted);
    let whole = join_of(states);
    let refused = memory.grant_all();
    let failed = whole.is_none();
    Seen {
        failed,
        refused,
        stated: failed || are_all(memory, whole),
        whole: are_all(memory, thirds(memory).and_then(join_of)),
    }
}

#[test]
fn puts_leave_what_was_put(rt: HostRuntime) {
    assert_each(&rt, rt.alloc(), Puts, 4);
}

#[test]
fn joins_leave_what_lies_between(rt: HostRuntime) {
    assert_each(&rt, rt.alloc(), Joins, 3);
    assert_each(&rt, rt.alloc(), JoinsAt { is_new: true }, 1);
    assert_each(&rt, rt.alloc(), JoinsAt { is_new: false }, 3);
}

#[test]
fn copies_and_lists_are_whole_or_refused(rt: HostRuntime) {
    assert_each(&rt, rt.alloc(), Copies, 4);
    assert_each(&rt, rt.alloc(), Lists, 3);
}
