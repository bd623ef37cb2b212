//! Maps kept as lists.

use super::turns::{Call, Memory, Seen, assert_each};
use super::values::{copied, is, joined};
use chunk_list::JoinList;
use lattice_core::Flag;

/// Flags by number.
type Flags<'a> = JoinList<u32, Flag, &'a Memory>;

/// In which order flags are raised.
#[derive(Clone, Copy)]
enum Order {
    Upwards,
    Downwards,
}

/// The number of the flag that is raised after so many others, of a thousand.
fn numbered(order: Order, after: u32) -> u32 {
    match order {
        Order::Upwards => after,
        Order::Downwards => 1000u32.wrapping_sub(after),
    }
}

/// Raises the flags that come after `from` others, up to `end`: how many are raised when memory is first refused, or
/// `end`.
fn raise(flags: &mut Flags<'_>, order: Order, from: u32, end: u32) -> u32 {
    for after in from..end {
        if flags
            .join_at(numbered(order, after), Flag::new(true))
            .is_err()
        {
            return after;
        }
    }
    end
}

/// The first flags.
fn raised(memory: &Memory, order: Order, from: u32, end: u32) -> Option<Flags<'_>> {
    let mut flags = JoinList::new(memory);
    let reached = raise(&mut flags, order, from, end);
    if reached == end { Some(flags) } else { None }
}

/// Flags raised one after the other, past the size of a chunk.
#[derive(Clone, Copy)]
struct Raises(Order);

impl Call for Raises {
    fn seen(self, memory: &Memory, granted: u32) -> Option<Seen> {
        Some(seen_raised(memory, self.0, granted))
    }
}

/// What is seen of a thousand flags that are raised in an order.
fn seen_raised(memory: &Memory, order: Order, granted: u32) -> Seen {
    let mut flags = JoinList::new(memory);
    memory.refuse_after(granted);
    let reached = raise(&mut flags, order, 0, 1000);
    let refused = memory.grant_all();
    let stated = is(&flags, raised(memory, order, 0, reached));
    raise(&mut flags, order, reached, 1000);
    Seen {
        failed: reached < 1000,
        refused,
        stated,
        whole: is(&flags, raised(memory, order, 0, 1000)),
    }
}

/// The join of two maps.
#[derive(Clone, Copy)]
struct Joins;

impl Call for Joins {
    fn seen(self, memory: &Memory, granted: u32) -> Option<Seen> {
        let order = Order::Upwards;
        let flags = raised(memory, order, 0, 12);
        let other = raised(memory, order, 8, 600);
        joined(memory, flags, other, raised(memory, order, 0, 600), granted)
    }
}

/// The copy of a map.
#[derive(Clone, Copy)]
struct Copies;

impl Call for Copies {
    fn seen(self, memory: &Memory, granted: u32) -> Option<Seen> {
        let order = Order::Downwards;
        copied(
            memory,
            raised(memory, order, 0, 600),
            raised(memory, order, 0, 600),
            granted,
        )
    }
}

#[test]
fn what_is_refused_is_not_raised(rt: HostRuntime) {
    assert_each(&rt, rt.alloc(), Raises(Order::Upwards), 3);
    assert_each(&rt, rt.alloc(), Raises(Order::Downwards), 3);
}

#[test]
fn refused_joins_and_copies_of_list_maps(rt: HostRuntime) {
    assert_each(&rt, rt.alloc(), Joins, 3);
    assert_each(&rt, rt.alloc(), Copies, 3);
}
