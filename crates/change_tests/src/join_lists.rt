//! Maps kept as lists: few keys and a thousand, upwards and downwards, joined, copied and walked.

use super::asserts::assert_found;
use super::changes::counted;
use chunk_list::{Entries, JoinList};
use lattice_core::{Join, Keep, NoMemory, Register};
use std::alloc::Global;
use std::ops::Range;
use std::test::Fail;

/// Registers of numbers, by number.
type Registers = JoinList<u32, Register<u64, u32>>;

/// The registers of the numbers from `from` up to `end`, each written once.
fn upwards(alloc: Global, from: u32, end: u32) -> Result<Registers, NoMemory> {
    let mut map = JoinList::new(alloc);
    for number in from..end {
        map.join_at(number, Register::new(1u64, number))?;
    }
    Ok(map)
}

/// The same, written downwards.
fn downwards(alloc: Global, from: u32, end: u32) -> Result<Registers, NoMemory> {
    let mut map = JoinList::new(alloc);
    for number in (from..end).rev() {
        map.join_at(number, Register::new(1u64, number))?;
    }
    Ok(map)
}

/// The number at a key.
fn value_at(map: &Registers, key: u32) -> Option<u32> {
    match map.get(&key) {
        Some(register) => Some(*register.value()),
        None => None,
    }
}

/// Whether the pairs of a map are these numbers in order, each with its own register.
fn has_pairs(map: &Registers, numbers: Range<u32>) -> bool {
    map.iter()
        .map(|(key, register)| (*key, *register.value()))
        .eq(numbers.map(|number| (number, number)))
}

/// Whether the map has just the registers of these numbers, in order, and finds each.
fn has_registers(map: &Registers, from: u32, end: u32) -> bool {
    let mut has_all = has_pairs(map, from..end);
    for number in from..end {
        has_all = has_all && value_at(map, number) == Some(number);
    }
    has_all
}

/// Whether a map has no pair, no last one, nothing at a key, not the key, and nothing from it on.
fn has_nothing<K: Keep, V: Join>(map: &JoinList<K, V>, key: &K) -> [bool; 5] {
    [
        map.iter().next().is_none(),
        map.last().is_none(),
        map.get(key).is_none(),
        !map.contains_key(key),
        map.from_key(key).next().is_none(),
    ]
}

#[test]
fn a_new_list_map_has_no_key(rt: HostRuntime) {
    let map: Registers = JoinList::new(rt.alloc());
    assert_found(&rt, has_nothing(&map, &1), [true; 5]);
}

/// What a map of the numbers from 5 up to 1005 has at the keys before and after these, whether it has the last key and
/// the one after it, and its last key.
fn ends_of(map: &Registers) -> (Option<u32>, Option<u32>, bool, bool, Option<u32>) {
    let last = map.last().map(|(key, _)| *key);
    let has_last = map.contains_key(&1004);
    let has_next = map.contains_key(&1005);
    (
        value_at(map, 4),
        value_at(map, 1005),
        has_last,
        has_next,
        last,
    )
}

/// Whether two maps have the registers of the numbers from 5 up to 1005, and whether they are the same.
fn have_a_thousand(up: &Registers, down: &Registers) -> [bool; 3] {
    [
        has_registers(up, 5, 1005),
        has_registers(down, 5, 1005),
        up.same(down),
    ]
}

#[test]
fn a_thousand_keys_are_found_in_order(rt: HostRuntime) -> Result<(), Fail> {
    let up = upwards(rt.alloc(), 5, 1005)?;
    let down = downwards(rt.alloc(), 5, 1005)?;
    assert_found(&rt, have_a_thousand(&up, &down), [true; 3]);
    let ends = (None, None, true, false, Some(1004));
    assert_found(&rt, (ends_of(&up), ends_of(&down)), (ends, ends));
    Ok(())
}

/// The next key of pairs.
fn next_key(left: &mut Entries<'_, u32, Register<u64, u32>>) -> Option<u32> {
    match left.next() {
        Some((key, _)) => Some(*key),
        None => None,
    }
}

/// The first four keys from 1003 on, the first from 0 on, and the first from 1005 on.
fn keys_from(map: &Registers) -> ([Option<u32>; 4], Option<u32>, Option<u32>) {
    let mut left = map.from_key(&1003);
    let keys = [
        next_key(&mut left),
        next_key(&mut left),
        next_key(&mut left),
        next_key(&mut left),
    ];
    let first = next_key(&mut map.from_key(&0));
    (keys, first, next_key(&mut map.from_key(&1005)))
}

#[test]
fn pairs_come_from_a_key_on(rt: HostRuntime) {
    let found = downwards(rt.alloc(), 5, 1005)
        .ok()
        .map(|map| keys_from(&map));
    let last = [Some(1003), Some(1004), None, None];
    assert_found(&rt, found, Some((last, Some(5), None)));
}

/// The registers of these keys, times and values, joined one after the other.
fn registers_of(alloc: Global, registers: &[(u32, u64, u32)]) -> Option<Registers> {
    let mut map = JoinList::new(alloc);
    for (key, time, value) in registers {
        map.join_at(*key, Register::new(*time, *value)).ok()?;
    }
    Some(map)
}

/// The numbers at two keys, and how many pairs a map has.
fn held(map: Registers) -> (Option<u32>, Option<u32>, usize) {
    (value_at(&map, 2), value_at(&map, 7), counted(map.iter()))
}

#[test]
fn the_greater_register_wins_at_a_key(rt: HostRuntime) {
    let registers = [(7, 4, 4), (2, 1, 1), (7, 3, 9), (2, 1, 5)];
    let found = registers_of(rt.alloc(), &registers).map(held);
    assert_found(&rt, found, Some((Some(5), Some(4), 2)));
}

/// Whether the first covers the second, the second covers the first, and they are the same.
fn compared<J: Join>(first: &J, second: &J) -> (bool, bool, bool) {
    (
        first.covers(second),
        second.covers(first),
        first.same(second),
    )
}

/// A copy of the second, where it is the same, once the second is joined to the first.
fn joined<J: Join>(first: &mut J, second: J) -> Option<J> {
    let copy = second.copy().ok()?;
    let is_same = copy.same(&second);
    let is_joined = first.join(second).is_ok();
    if is_same && is_joined {
        Some(copy)
    } else {
        None
    }
}

/// How two maps compare before and after the second is joined to the first, and whether that has these numbers then.
fn compared_twice(
    mut map: Registers,
    other: Registers,
) -> Option<((bool, bool, bool), (bool, bool, bool), bool)> {
    let apart = compared(&map, &other);
    let copy = joined(&mut map, other)?;
    Some((apart, compared(&map, &copy), has_registers(&map, 0, 1400)))
}

#[test]
fn list_maps_are_joined(rt: HostRuntime) -> Result<(), Fail> {
    let map = upwards(rt.alloc(), 0, 700)?;
    let other = upwards(rt.alloc(), 600, 1400)?;
    let wanted = ((false, false, false), (true, false, false), true);
    assert_found(&rt, compared_twice(map, other), Some(wanted));
    Ok(())
}
