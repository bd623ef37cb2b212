//! The assertion of these tests. Each `assert_eq!` is expensive to prove, so there is one, here, for values of any type.

use std::fmt::Debug;
use std::process::Abort;

/// What was found is what is wanted.
pub fn assert_found<T: Debug + PartialEq + Drop>(rt: &impl Abort, found: T, wanted: T) {
    assert_eq!(rt; found, wanted);
}
