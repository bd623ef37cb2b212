//! How many allocations a call makes, each of which failed in turn.

use refusing_memory::{Refusing, requests};
pub(super) use refusing_memory::{Call, Seen};
use std::alloc::Global;
use std::process::Abort;

/// Memory that refuses one request.
pub(super) type Memory = Refusing<Global>;

/// Each request of the call, of which there are at least so many, may be refused.
pub(super) fn assert_each<C: Call>(rt: &impl Abort, alloc: Global, call: C, least: u32) {
    let requests = requests(alloc, call);
    assert!(rt; requests.is_some_and(|count| count >= least));
}

/// The call makes no request for memory.
pub(super) fn assert_none<C: Call>(rt: &impl Abort, alloc: Global, call: C) {
    assert_eq!(rt; requests(alloc, call), Some(0));
}
