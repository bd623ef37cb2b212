//! Lists that grow and shrink past the size of a chunk, at both ends and in between, and each request for memory
//! refused.
ghost use Rattle.std.specs.Prelude.{false, true};

use super::asserts::assert_found;
use chunk_list::{ChunkList, Probe};
use lattice_core::NoMemory;
use std::alloc::Global;
use std::ops::Range;

/// No item passes.
struct AtFront;

impl Probe<u32> for AtFront {
    ghost passes = { λ _ _. false };

    fn passes(&self, _item: &u32) -> bool {
        false
    }
}

/// Every item passes.
struct AtEnd;

impl Probe<u32> for AtEnd {
    ghost passes = { λ _ _. true };

    fn passes(&self, _item: &u32) -> bool {
        true
    }
}

/// The numbers from 0 up to `count` in their order, the lower half added at the front.
fn grown(alloc: Global, count: u32) -> Result<ChunkList<u32>, NoMemory> {
    let mut list = ChunkList::new(alloc);
    let half = count / 2;
    for number in (0..half).rev() {
        list.insert(&AtFront, number)?;
    }
    for number in half..count {
        list.insert(&AtEnd, number)?;
    }
    Ok(list)
}

/// Whether the list has just these numbers.
fn has_numbers(list: &ChunkList<u32>, numbers: Range<u32>) -> bool {
    list.iter().copied().eq(numbers)
}

/// Takes so many numbers off the front of a list: whether they are those from 0 on, in order.
fn come_off_in_order(list: &mut ChunkList<u32>, count: u32) -> bool {
    let mut are_in_order = true;
    for number in 0..count {
        let is_first = list.first_failing(&AtFront) == Some(&number);
        let is_removed = list.remove(&AtFront) == Some(number);
        are_in_order = are_in_order && is_first && is_removed;
    }
    are_in_order
}

/// Whether a list of 3,000 numbers has them all, ends with the last, gives up the first 2,000, has the others then, and
/// has nothing past its end.
fn come_and_go(mut list: ChunkList<u32>) -> [bool; 5] {
    let has_all = has_numbers(&list, 0..3000);
    let ends = list.last() == Some(&2999);
    let come_off = come_off_in_order(&mut list, 2000);
    let has_others = has_numbers(&list, 2000..3000);
    let has_end = list.remove(&AtEnd).is_none();
    [has_all, ends, come_off, has_others, has_end]
}

#[test]
fn items_come_and_go_at_both_ends(rt: HostRuntime) {
    let found = grown(rt.alloc(), 3000).ok().map(come_and_go);
    assert_found(&rt, found, Some([true; 5]));
}

/// What is replaced at the front of a list and past its end, and whether all is pushed; and whether the list has these
/// numbers then.
fn replaced(mut list: ChunkList<u32>) -> (Option<u32>, Option<u32>, bool, bool) {
    let front = list.replace(&AtFront, 7);
    let end = list.replace(&AtEnd, 8);
    let is_pushed = list.push(9).is_ok();
    let has_these = list.failing(&AtFront).copied().eq([7, 1, 9]);
    (front, end, is_pushed, has_these)
}

#[test]
fn an_item_is_replaced(rt: HostRuntime) {
    let found = grown(rt.alloc(), 2).ok().map(replaced);
    assert_found(&rt, found, Some((Some(0), None, true, true)));
}
