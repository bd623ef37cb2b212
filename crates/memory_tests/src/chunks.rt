//! Lists in chunks.
ghost use Rattle.std.specs.Prelude.{false};

use super::turns::{Call, Memory, Seen, assert_each};
use chunk_list::{ChunkList, Probe};

/// A list of numbers.
type Numbers<'a> = ChunkList<u32, &'a Memory>;

/// No item passes.
struct AtFront;

impl Probe<u32> for AtFront {
    ghost passes = { λ _ _. false };

    fn passes(&self, _item: &u32) -> bool {
        false
    }
}

/// Where a list grows.
#[derive(Clone, Copy)]
enum End {
    Front,
    Back,
}

/// The numbers from `from` up to `end` are added at one end: the first one that memory was refused for, or `end`.
fn grow(list: &mut Numbers<'_>, place: End, from: u32, end: u32) -> u32 {
    for number in from..end {
        let added = match place {
            End::Front => list.insert(&AtFront, number),
            End::Back => list.push(number),
        };
        if added.is_err() {
            return number;
        }
    }
    end
}

/// The number at a place, of as many as were added at one end.
fn numbered(place: End, count: u32, at: u32) -> u32 {
    match place {
        End::Front => count.wrapping_sub(at).wrapping_sub(1),
        End::Back => at,
    }
}

/// Whether the list has just as many numbers as were added at one end, in their order.
fn has(list: &Numbers<'_>, place: End, count: u32) -> bool {
    let mut left = list.iter();
    for at in 0..count {
        if left.next().copied() != Some(numbered(place, count, at)) {
            return false;
        }
    }
    left.next().is_none()
}

/// Items added at one end, past the size of a chunk.
#[derive(Clone, Copy)]
struct Growing(End);

impl Call for Growing {
    fn seen(self, memory: &Memory, granted: u32) -> Option<Seen> {
        Some(grown(memory, self.0, granted))
    }
}

/// What is seen of a list that grows at one end.
fn grown(memory: &Memory, place: End, granted: u32) -> Seen {
    let mut list = ChunkList::new(memory);
    memory.refuse_after(granted);
    let reached = grow(&mut list, place, 0, 1200);
    let refused = memory.grant_all();
    let stated = has(&list, place, reached);
    grow(&mut list, place, reached, 1200);
    Seen {
        failed: reached < 1200,
        refused,
        stated,
        whole: has(&list, place, 1200),
    }
}

#[test]
fn what_is_refused_is_not_added(rt: HostRuntime) {
    assert_each(&rt, rt.alloc(), Growing(End::Front), 3);
    assert_each(&rt, rt.alloc(), Growing(End::Back), 3);
}
