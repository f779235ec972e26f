//! The comparison of values.

use std::fmt::Debug;
use std::process::Abort;

// The value is the one that is wanted. This call is cheaper to prove than an `assert_eq!`.
pub fn assert_same<T: Debug + PartialEq>(rt: &impl Abort, found: &T, wanted: &T) {
    assert_eq!(rt; *found, *wanted);
}
