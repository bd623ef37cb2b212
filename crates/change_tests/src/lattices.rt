//! Worked examples of each lattice, at concrete types.

use super::asserts::assert_found;
use lattice_core::{
    Both, Flag, Greatest, Join, JoinMap, Keep, NoMemory, Register,
    covering_is_the_order_of_the_join, join_all, lists_join_in_any_order, maps_join_key_by_key,
    registers_join_to_the_greatest,
};
use std::alloc::Global;

fn greatest(key: u32, value: u32) -> Greatest<u32, u32> {
    Greatest::of(key, value)
}

fn holds(state: &Greatest<u32, u32>, key: u32, value: u32) -> bool {
    match state.get() {
        Some(best) => *best.key() == key && *best.value() == value,
        None => false,
    }
}

/// The first, joined with the second, where memory suffices for it. A body that always returns `NoMemory` would meet
/// the contracts of `copy` and of `join`: this shows that with enough memory the calls succeed.
fn join_of<J: Join>(a: &J, b: &J) -> Option<J> {
    let mut whole = a.copy().ok()?;
    whole.join(b.copy().ok()?).ok()?;
    Some(whole)
}

/// The join of two, where it covers both and is the same the other way round.
fn merged<J: Join>(a: &J, b: &J) -> Option<J> {
    let whole = join_of(a, b)?;
    let other_way = join_of(b, a)?;
    let is_right = whole.covers(a) && whole.covers(b) && whole.same(&other_way);
    if is_right { Some(whole) } else { None }
}

/// Whether a copy is made, and is equal. With ample memory it is made, which no clause says.
pub(super) fn is_copied<K: Keep>(kept: &K) -> bool {
    match kept.copy() {
        Ok(copy) => copy == *kept,
        Err(_) => false,
    }
}

/// The greatest of several states of a list, where memory suffices for it.
fn greatest_of(alloc: Global) -> Option<Greatest<u32, u32>> {
    let states = vec![in alloc; greatest(1, 5), greatest(3, 2), greatest(3, 4)].ok()?;
    join_all(states).ok()?
}

#[test]
fn joins_of_lists(rt: HostRuntime) {
    let whole = greatest_of(rt.alloc()).map(|whole| holds(&whole, 3, 4));
    assert_found(&rt, whole, Some(true));
    let nothing: Vec<Greatest<u32, u32>> = Vec::new(rt.alloc());
    assert_found(&rt, matches!(join_all(nothing), Ok(None)), true);
}

#[test]
fn kept_unsigned_numbers_are_copied(rt: HostRuntime) {
    let numbers = [
        is_copied(&7u8),
        is_copied(&7u16),
        is_copied(&7u32),
        is_copied(&7u64),
        is_copied(&7usize),
    ];
    assert_found(&rt, numbers, [true; 5]);
}

#[test]
fn kept_signed_numbers_are_copied(rt: HostRuntime) {
    let numbers = [
        is_copied(&-7i8),
        is_copied(&-7i16),
        is_copied(&-7i32),
        is_copied(&-7i64),
    ];
    assert_found(&rt, numbers, [true; 4]);
}

#[test]
fn kept_choices_are_copied(rt: HostRuntime) {
    let none: Option<u32> = None;
    let choices = [is_copied(&true), is_copied(&Some(7u32)), is_copied(&none)];
    assert_found(&rt, choices, [true; 3]);
}

#[test]
fn kept_texts_are_copied(rt: HostRuntime) {
    let text = String::from_str(rt.alloc(), "ann").ok();
    assert_found(&rt, text.map(|text| is_copied(&text)), Some(true));
}

#[test]
fn flags_are_joined(rt: HostRuntime) {
    let raised = merged(&Flag::new(false), &Flag::new(true)).map(|flag| flag.is_raised());
    assert_found(
        &rt,
        (raised, Flag::new(false).is_raised()),
        (Some(true), false),
    );
}

/// The key and the value of the join of two registers.
fn joined_registers(a: (u32, u8), b: (u32, u8)) -> Option<(u32, u8)> {
    let joined = merged(&Register::new(a.0, a.1), &Register::new(b.0, b.1))?;
    Some((*joined.key(), *joined.value()))
}

#[test]
fn registers_are_joined(rt: HostRuntime) {
    let later = joined_registers((2, 1), (1, 9));
    let greater = joined_registers((2, 1), (2, 9));
    assert_found(&rt, (later, greater), (Some((2, 1)), Some((2, 9))));
}

#[test]
fn a_greatest_is_joined_to_none(rt: HostRuntime) {
    let best = merged(&Greatest::new(), &greatest(1, 5)).map(|best| holds(&best, 1, 5));
    assert_found(&rt, best, Some(true));
}

type Pair = Both<Flag, Greatest<u32, u32>>;

fn pair(raised: bool, second: Greatest<u32, u32>) -> Pair {
    Both {
        first: Flag::new(raised),
        second,
    }
}

/// Whether a pair is raised, and holds this.
fn pair_holds(pair: &Pair, key: u32, value: u32) -> bool {
    pair.first.is_raised() && holds(&pair.second, key, value)
}

#[test]
fn pairs_are_joined(rt: HostRuntime) {
    let both = merged(&pair(true, greatest(1, 5)), &pair(false, greatest(3, 2)));
    assert_found(&rt, both.map(|both| pair_holds(&both, 3, 2)), Some(true));
}

#[test]
fn laws_are_called(rt: HostRuntime) {
    covering_is_the_order_of_the_join::<Flag>();
    lists_join_in_any_order::<Both<Flag, Greatest<u32, u32>>>();
    registers_join_to_the_greatest::<u64, String>();
    maps_join_key_by_key::<String, Greatest<u32, u32>>();
    assert_found(&rt, (NoMemory.number(), NoMemory.name()), (1, "NoMemory"));
}

type Bests = JoinMap<u16, Greatest<u32, u32>>;

fn left(alloc: Global) -> Result<Bests, NoMemory> {
    let mut left = JoinMap::new(alloc);
    left.put(2u16, greatest(1, 1))?;
    left.put(2u16, greatest(1, 5))?;
    left.join_at(7u16, greatest(4, 4))?;
    left.join_at(7u16, greatest(3, 9))?;
    Ok(left)
}

fn right(alloc: Global) -> Result<Bests, NoMemory> {
    let mut right = JoinMap::new(alloc);
    right.put(2u16, greatest(3, 2))?;
    right.put(1u16, greatest(6, 6))?;
    Ok(right)
}

/// The join of two of which neither covers the other.
fn merged_apart<J: Join>(left: &J, right: &J) -> Option<J> {
    if left.covers(right) || left.same(right) {
        None
    } else {
        merged(left, right)
    }
}

/// The join of the left map and the right one, where memory suffices for it.
fn whole(alloc: Global) -> Option<Bests> {
    let left = left(alloc).ok()?;
    merged_apart(&left, &right(alloc).ok()?)
}

#[test]
fn a_new_map_is_empty(rt: HostRuntime) {
    let bests: Bests = JoinMap::new(rt.alloc());
    assert_found(&rt, bests.is_empty(), true);
}

/// How long a map is, whether it has the keys 1 and 3, and how many pairs it has: all, from 2 up to 7, and from 2 on.
fn counts(map: Bests) -> (usize, bool, bool, usize, usize, usize) {
    (
        map.len(),
        map.contains_key(&1),
        map.contains_key(&3),
        map.iter().count(),
        map.range(2u16..7).count(),
        map.range(2u16..).count(),
    )
}

#[test]
fn maps_are_joined(rt: HostRuntime) {
    let found = whole(rt.alloc()).map(counts);
    assert_found(&rt, found, Some((3, true, false, 3, 1, 2)));
}

/// Whether a map has these keys, in this order, and at each the value of the entry.
fn has_keys<K: Keep, V: Join>(map: &JoinMap<K, V>, keys: &[K]) -> bool {
    let mut has_all = map.len() == keys.len();
    for ((key, value), wanted) in map.iter().zip(keys) {
        let is_found = map.get(key).is_some_and(|found| found.same(value));
        has_all = has_all && *key == *wanted && is_found;
    }
    has_all
}

#[test]
fn entries_of_a_map_come_in_key_order(rt: HostRuntime) {
    let found = whole(rt.alloc()).map(|map| has_keys(&map, &[1, 2, 7]));
    assert_found(&rt, found, Some(true));
}

/// Whether a map holds this at key 7.
fn holds_at_7(map: &Bests, key: u32, value: u32) -> bool {
    match map.get(&7) {
        Some(best) => holds(best, key, value),
        None => false,
    }
}

/// Joins a greater value at key 7, where there is one: whether memory sufficed for it.
fn join_at_7(map: &mut Bests) -> bool {
    match map.get_mut(&7) {
        Some(best) => best.join(greatest(5, 0)).is_ok(),
        None => false,
    }
}

/// Whether the value of a map at key 7 is what it is to be before and after a greater one is joined there.
fn joined_in_place(mut map: Bests) -> (bool, bool, bool) {
    let before = holds_at_7(&map, 4, 4);
    let is_joined = join_at_7(&mut map);
    (before, is_joined, holds_at_7(&map, 5, 0))
}

#[test]
fn a_value_of_a_map_is_joined_in_place(rt: HostRuntime) {
    let found = whole(rt.alloc()).map(joined_in_place);
    assert_found(&rt, found, Some((true, true, true)));
}

/// Whether two texts are keys of flags of which the first is set, where memory suffices for them.
fn found_by_text(alloc: Global) -> Option<(bool, bool)> {
    let mut flags: JoinMap<String, Flag> = JoinMap::new(alloc);
    let ann = String::from_str(alloc, "ann").ok()?;
    flags.put(ann, Flag::new(true)).ok()?;
    Some((
        flags.get_by_text("ann").is_some(),
        flags.get_by_text("eve").is_some(),
    ))
}

#[test]
fn a_value_is_found_by_the_text_of_its_key(rt: HostRuntime) {
    assert_found(&rt, found_by_text(rt.alloc()), Some((true, false)));
}
