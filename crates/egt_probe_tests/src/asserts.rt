//! What ends a test, proved once a crate: a macro that prints has a long proof wherever it stands.
use std::fmt::Debug;
use std::process::Abort;

/// Ends the test where this does not hold.
pub(crate) fn require(rt: &impl Abort, right: bool) {
    assert!(rt; right);
}

/// Ends the test where this does not hold of the row, and prints it.
pub(crate) fn require_at<R: Debug + Drop>(rt: &impl Abort, right: bool, row: R) {
    assert!(rt; right, "{row:?}");
}

/// Ends the test where what was found is not what was wanted, and prints both.
pub(crate) fn agree<T: PartialEq + Debug + Drop>(rt: &impl Abort, found: T, wanted: T) {
    assert_eq!(rt; found, wanted);
}
