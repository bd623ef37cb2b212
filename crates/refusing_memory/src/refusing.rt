//! Memory that counts requests, and refuses one of them where it is asked to.

use std::alloc::{AllocError, Allocator};
use std::cell::Cell;

/// Memory that grants requests as another one does, but for one request that it refuses where it is asked to.
///
/// Collections hold a `&` to it.
pub struct Refusing<M: Allocator> {
    /// How many requests are granted before one is refused.
    granted: Cell<u64>,
    memory: M,
}

/// More requests than are ever made. A refused request takes one from none, which leaves more than these.
const ALL: u64 = 1 << 62;

impl<M: Allocator> Refusing<M> {
    /// Memory that refuses no request that `memory` grants.
    pub fn new(memory: M) -> Refusing<M> {
        Refusing {
            granted: Cell::new(ALL),
            memory,
        }
    }

    /// The memory that grants what isn't refused.
    pub fn inner(&self) -> &M {
        &self.memory
    }

    /// Refuses the request after the next `granted` ones, and none after that.
    pub fn refuse_after(&self, granted: u32) {
        self.granted.set(u64::from(granted));
    }

    /// Refuses no request from now on. Whether one was refused since the last call of `refuse_after`.
    pub fn grant_all(&self) -> bool {
        self.granted.replace(ALL) > ALL
    }
}

impl<M: Allocator> Drop for Refusing<M> {
    fn drop(self) {
        let Self {
            granted: _,
            memory: _,
        } = self;
    }
}

/// Whether the next request is granted, which counts it.
fn is_granted(granted: &Cell<u64>) -> bool {
    let left = granted.get();
    granted.set(left.wrapping_sub(1));
    left > 0
}

unsafe impl<M: Allocator> Allocator for Refusing<M> {
    ghost dealloc_token = { λ refusing ty ptr. M.dealloc_token refusing.memory ty ptr };

    fn allocate(&self, size: usize, align: usize) -> Result<*mut u8, AllocError> {
        if is_granted(&self.granted) {
            return self.memory.allocate(size, align);
        }
        Err(AllocError)
    }

    unsafe fn deallocate(&self, ptr: *mut u8, size: usize, align: usize) {
        self.memory.deallocate(ptr, size, align);
    }
}
