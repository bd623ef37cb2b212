//! The operations of a record, in the order of their arrival.

ghost use Rattle.std.specs.Prelude.{◌≡◌, ◌+◌, ◌-◌, ◌<◌, ◌^◌, ◌∷◌, ◌++◌, [], IfOk, OnOk, OnErr, Some, drop, length};
ghost use Rattle.std.specs.Prelude.{slice_get};
ghost use Rattle.std.specs.Iterator.{YieldsFirstRef, item_count};
ghost use Rattle.std.specs.Option.{option_copied};
ghost use Rattle.replica_core.specs.Arrivals.{shared_items};

use lattice_core::NoMemory;
use review_ops::Op;
use std::alloc::{Allocator, Global};
use std::marker::Model;
use std::mem;
use std::sync::Arc;

/// Operations in the order of arrival: first those that copies share, then those of this replica alone. Contracts see
/// all of them, and the spare capacity.
#[derive(Drop)]
pub(super) struct Arrivals<A: Allocator + Copy = Global> {
    shared: Option<Arc<Vec<Op<A>, A>, A>>,
    own: Vec<Op<A>, A>,
    count: usize,
}

impl<A: Allocator + Copy> Model for Arrivals<A> {
    ghost use Rattle.std.specs.Prelude.{◌≡◌, ◌++◌, ◌-◌, length, vec_capacity, vec_len};
    ghost use Rattle.replica_core.specs.Arrivals.{Arrived, shared_items};

    ghost Value = { Arrived };

    ghost view = { λ a. record {
      items = shared_items a.shared ++ a.own.items;
      room = vec_capacity a.own - vec_len a.own;
    } };

    ghost invariant = { λ a. a.count ≡ length (shared_items a.shared ++ a.own.items) };
}

impl<A: Allocator + Copy> Arrivals<A> {
    /// No operations. It takes no memory.
    pub(super) fn new(alloc: A) -> Arrivals<A>
        ensures { result.items ≡ [] }
    {
        Arrivals::of(Vec::new(alloc))
    }

    /// Just these operations.
    pub(super) fn of(ops: Vec<Op<A>, A>) -> Arrivals<A>
        ensures { result.items ≡ ops.items }
    {
        let count = ops.len();
        Arrivals {
            shared: None,
            own: ops,
            count,
        }
    }

    /// How many there are.
    pub(super) fn len(&self) -> usize
        ensures { result ≡ length self.now.items }
    {
        self.count
    }

    /// The operation at a place, from 0 on, if there is one.
    pub(super) fn get(&self, place: usize) -> Option<&Op<A>>
        ensures { option_copied result ≡ slice_get self.now.items place }
    {
        item_of(items_in(&self.shared), self.own.as_slice(), place)
    }

    /// The operation at an index below `len`.
    pub(super) fn at(&self, place: usize) -> &Op<A>
        requires { place < length self.now.items }
        ensures { slice_get self.now.items place ≡ Some result.now }
    {
        item_at(items_in(&self.shared), self.own.as_slice(), place)
    }

    /// Makes room for one more.
    pub(super) fn reserve(&mut self) -> Result<(), NoMemory>
        ensures items { self.new.items ≡ self.old.items }
        ensures room { OnOk result (0 < self.new.room) }
        ensures count { OnOk result (length self.new.items < 2 ^ 64 - 1) }
    {
        if self.count == usize::MAX {
            return Err(NoMemory);
        }
        self.own.try_reserve(1)?;
        Ok(())
    }

    /// Adds an operation at the end, for which there is room.
    pub(super) fn push_reserved(&mut self, op: Op<A>)
        requires room { 0 < self.old.room }
        requires count { length self.old.items < 2 ^ 64 - 1 }
        ensures { self.new.items ≡ self.old.items ++ op ∷ [] }
    {
        self.own.push_reserved(op);
        self.count += 1;
    }

    /// All of them, in their order.
    pub(super) fn iter(&self) -> Iter<'_, A>
        ensures { result ≡ self.now.items }
    {
        Iter {
            shared: items_in(&self.shared),
            own: self.own.as_slice(),
        }
    }

    /// Those from a place on.
    pub(super) fn since(&self, place: usize) -> Iter<'_, A>
        ensures { result ≡ drop place self.now.items }
    {
        rest_of(items_in(&self.shared), self.own.as_slice(), place)
    }

    /// The same operations. It shares those that are shared, and copies its own.
    pub(super) fn copy(&self, alloc: A) -> Result<Arrivals<A>, NoMemory>
        ensures { IfOk result (λ copied. copied.items ≡ self.now.items) }
    {
        Ok(Arrivals {
            shared: again(&self.shared)?,
            own: copy_ops(alloc, self.own.as_slice())?,
            count: self.count,
        })
    }

    /// Lets copies share what arrived so far, unless something is shared already. Where memory is refused nothing is
    /// shared. It costs O(1).
    pub(super) fn share(&mut self, alloc: A) -> Result<(), NoMemory>
        ensures { self.new.items ≡ self.old.items }
    {
        if self.shared.is_some() {
            return Ok(());
        }
        match Arc::new(alloc, mem::replace(&mut self.own, Vec::new(alloc))) {
            Ok(ops) => {
                self.shared = Some(ops);
                Ok(())
            }
            Err(refused) => {
                self.own = refused.value;
                Err(NoMemory)
            }
        }
    }

    /// The operations as one vector: its own where nothing is shared, else copies. It takes no memory where there is no
    /// operation.
    pub(super) fn into_vec(self, alloc: A) -> Result<Vec<Op<A>, A>, NoMemory>
        ensures ok { IfOk result (λ ops. ops.items ≡ self.items) }
        ensures err { OnErr result (0 < length self.items) }
    {
        let Arrivals { shared, own, count } = self;
        let Some(ops) = shared else {
            return Ok(own);
        };
        if count == 0 {
            return Ok(own);
        }
        joined(copy_ops(alloc, ops.as_slice())?, own)
    }
}

/// The operations that copies share.
fn items_in<A: Allocator + Copy>(shared: &Option<Arc<Vec<Op<A>, A>, A>>) -> &[Op<A>]
    ensures { result.now ≡ shared_items shared.now }
{
    match shared {
        Some(ops) => ops.as_slice(),
        None => &[],
    }
}

/// The same operations, shared once more.
fn again<A: Allocator + Copy>(
    shared: &Option<Arc<Vec<Op<A>, A>, A>>,
) -> Result<Option<Arc<Vec<Op<A>, A>, A>>, NoMemory>
    ensures { IfOk result (λ same. shared_items same ≡ shared_items shared.now) }
{
    match shared {
        Some(ops) => Ok(Some(Arc::try_clone(ops)?)),
        None => Ok(None),
    }
}

/// The item at a place of two lists, one after the other.
fn item_of<'a, A: Allocator + Copy>(
    first: &'a [Op<A>],
    second: &'a [Op<A>],
    place: usize,
) -> Option<&'a Op<A>>
    ensures { option_copied result ≡ slice_get (first.now ++ second.now) place }
{
    match place.checked_sub(first.len()) {
        Some(later) => second.get(later),
        None => first.get(place),
    }
}

/// The item at a place that is one of two lists, one after the other.
fn item_at<'a, A: Allocator + Copy>(
    first: &'a [Op<A>],
    second: &'a [Op<A>],
    place: usize,
) -> &'a Op<A>
    requires { place < length (first.now ++ second.now) }
    ensures { slice_get (first.now ++ second.now) place ≡ Some result.now }
{
    match place.checked_sub(first.len()) {
        Some(later) => &second[later],
        None => &first[place],
    }
}

/// What two lists, one after the other, have from a place on.
fn rest_of<'a, A: Allocator + Copy>(
    first: &'a [Op<A>],
    second: &'a [Op<A>],
    place: usize,
) -> Iter<'a, A>
    ensures { result ≡ drop place (first.now ++ second.now) }
{
    match place.checked_sub(first.len()) {
        Some(later) => Iter {
            shared: &[],
            own: items_from(second, later),
        },
        None => Iter {
            shared: items_from(first, place),
            own: second,
        },
    }
}

/// The operations of one vector and then those of another one.
fn joined<A: Allocator + Copy>(
    mut first: Vec<Op<A>, A>,
    second: Vec<Op<A>, A>,
) -> Result<Vec<Op<A>, A>, NoMemory>
    ensures { IfOk result (λ both. both.items ≡ first.items ++ second.items) }
{
    for op in second {
        first.push(op)?;
    }
    Ok(first)
}

/// Copies of operations, in their order.
fn copy_ops<A: Allocator + Copy>(alloc: A, ops: &[Op<A>]) -> Result<Vec<Op<A>, A>, NoMemory>
    ensures { IfOk result (λ copies. copies.items ≡ ops.now) }
{
    let mut copies = Vec::with_capacity(alloc, ops.len())?;
    for op in ops {
        copies.push(op.copy()?)?;
    }
    Ok(copies)
}

/// The items from an index on.
fn items_from<X>(items: &[X], index: usize) -> &[X]
    ensures { result.now ≡ drop index items.now }
{
    items.get(index..).unwrap_or(&[])
}

/// Operations of a record, in the order in which they arrived. Contracts see those that are left.
#[derive(Drop)]
pub struct Iter<'a, A: Allocator + Copy = Global> {
    shared: &'a [Op<A>],
    own: &'a [Op<A>],
}

impl<'a, A: Allocator + Copy> Model for Iter<'a, A> {
    ghost use Rattle.std.specs.Prelude.{List, ◌++◌};
    ghost use Rattle.review_ops.specs.Operation.{Operation};

    ghost Value = { List Operation };

    ghost view = { λ i. i.shared.now ++ i.own.now };
}

impl<'a, A: Allocator + Copy> Iterator for Iter<'a, A> {
    type Item = &'a Op<A>;

    ghost next_gives = { YieldsFirstRef (λ i. i) };

    ghost remaining = { item_count (λ i. i) };

    fn next(&mut self) -> Option<&'a Op<A>> {
        if let Some((first, rest)) = self.shared.split_first() {
            self.shared = rest;
            return Some(first);
        }
        let (first, rest) = self.own.split_first()?;
        self.own = rest;
        Some(first)
    }
}
