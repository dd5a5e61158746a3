//! Why a trial fails.

use std::alloc::AllocError;
use std::io;
use thiserror::Error;
use zt_rows::Refusal;

/// Why a trial did not go as it should.
#[derive(Debug, Drop, Error)]
pub enum TrialFault {
    /// Something was refused.
    #[error("refused: {}", .0.name())]
    Refused(Refusal),
    /// Memory was refused.
    #[error(transparent)]
    Memory(#[from(alloc)] AllocError),
    /// A connection could not be made, or not be used.
    #[error(transparent)]
    Unconnected(#[from] io::Error),
    /// A gate waited in vain for another client.
    #[error("a client was held in vain")]
    HeldInVain,
    /// A gate was called around something that is no command, or not around each command.
    #[error("a gate was called elsewhere")]
    GateElsewhere,
    /// A gate heard other lines or answers than those of its client.
    #[error("a gate heard otherwise than told")]
    HeardOtherwise,
    /// A client, or the one beside it, was left otherwise than told.
    #[error("a client was left otherwise than told")]
    LeftOtherwise,
    /// The log has fewer rows than answers came, or more.
    #[error("rows are missing, or answers")]
    RowsMissing,
}

impl From<Refusal> for TrialFault {
    fn from(refusal: Refusal) -> TrialFault {
        TrialFault::Refused(refusal)
    }
}
