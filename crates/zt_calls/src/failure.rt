//! The ways in which the function of a call ends early: with a status, or with an allocation failure.

use std::alloc::AllocError;
use zt_bits::Status;

/// Why the function of a call ended before its last line.
#[derive(Clone, Copy, Debug)]
pub enum Failure {
    /// The call answers with this status.
    Status(Status),
    /// An allocation failed.
    OutOfMemory,
}

impl From<Status> for Failure {
    ghost use Rattle.std.specs.Prelude.{◌≡◌};
    ghost use Rattle.zt_calls.specs.declared.failure.Failure.TheVariants as failure;

    ghost from_gives = { λ wrong made. made ≡ failure.Status wrong };

    fn from(status: Status) -> Failure {
        Failure::Status(status)
    }
}

impl From<AllocError> for Failure {
    ghost use Rattle.std.specs.Prelude.{◌≡◌};
    ghost use Rattle.zt_calls.specs.declared.failure.Failure.TheVariants as failure;

    ghost from_gives = { λ _ made. made ≡ failure.OutOfMemory };

    fn from(_refused: AllocError) -> Failure {
        Failure::OutOfMemory
    }
}
