//! Comparisons as calls: a function that asserts often is proved slowly, and one that makes as many calls is not.

use std::fmt::Debug;
use std::process::Abort;

/// Asserts that both are the same.
pub fn same<T: PartialEq + Debug + Drop>(rt: &impl Abort, left: T, right: T) {
    assert_eq!(rt; left, right);
}

/// Asserts that both are the same, and says where they aren't.
pub fn same_at<T: PartialEq + Debug + Drop>(rt: &impl Abort, left: T, right: T, at: &(impl Debug)) {
    assert_eq!(rt; left, right, "at {at:?}");
}

/// Fails the test unless `it` is true.
pub fn holds(rt: &impl Abort, it: bool) {
    assert!(rt; it);
}

/// Fails the test unless `it` is true, and says where it isn't.
pub fn holds_at(rt: &impl Abort, it: bool, at: &(impl Debug)) {
    assert!(rt; it, "at {at:?}");
}
