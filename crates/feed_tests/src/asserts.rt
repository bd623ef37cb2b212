//! The one assertion of these tests. Each `assert_eq!` is expensive to prove, so there is one, here, for values of any
//! type; a test passes what it found and what it wants.

use std::fmt::Debug;
use std::process::Abort;

/// What was found is what is wanted.
pub fn assert_found<T: Debug + PartialEq + Drop>(rt: &impl Abort, found: T, wanted: T) {
    assert_eq!(rt; found, wanted);
}
