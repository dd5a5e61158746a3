//! The check of a test.

use std::process::Abort;

/// Stops the test if this does not hold. The text of the assertion is in this function alone. So a proof of a caller does
/// not go over its bytes.
pub(super) fn check(rt: &impl Abort, holds: bool) {
    assert!(rt; holds);
}
