//! The limit on the places for rows.

/// The most places for rows, and the least koid that is too large. From it on, no owner has a table and no koid has
/// counts. A growth beyond it fails with `AllocError`. Below it, each support count fits its type.
pub const MOST_PLACES: u64 = 1 << 48;
