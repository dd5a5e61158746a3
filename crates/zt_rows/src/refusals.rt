//! Refusals: why the debugger did not do what it was asked.

ghost use Rattle.std.specs.Prelude.{◌≡◌};
ghost use Rattle.zt_rows.specs.Refusals.{refusal_number, refusal_name};

use std::alloc::AllocError;

/// Why the debugger did not do what it was asked. A refusal changes nothing.
#[derive(Clone, Copy, Debug, PartialEq, Eq)]
pub enum Refusal {
    /// An allocation failed.
    OutOfMemory,
    /// The caller is not a live process in that state.
    NoProcess,
    /// The history has its last moment already.
    Full,
    NoMoment,
    NoBranch,
    NameTaken,
    /// A call was asked for while the client follows no branch.
    Detached,
    /// The position has fewer ancestors than were asked for.
    AtStart,
    NoObject,
    /// The line is malformed: the parse error is at this column, counted from 1.
    BadLine(u64),
    LineTooLong,
    ClientFull,
    TooManyClients,
    ReadFault,
    WriteFault,
    BadName,
}

impl Refusal {
    /// The refusal's number, 1 to 16.
    pub fn number(self) -> u8
        ensures { result ≡ refusal_number self }
    {
        match self {
            Refusal::OutOfMemory => 1,
            Refusal::NoProcess => 2,
            Refusal::Full => 3,
            Refusal::NoMoment => 4,
            Refusal::NoBranch => 5,
            Refusal::NameTaken => 6,
            Refusal::Detached => 7,
            Refusal::AtStart => 8,
            Refusal::NoObject => 9,
            Refusal::BadLine(_) => 10,
            Refusal::LineTooLong => 11,
            Refusal::ClientFull => 12,
            Refusal::TooManyClients => 13,
            Refusal::ReadFault => 14,
            Refusal::WriteFault => 15,
            Refusal::BadName => 16,
        }
    }

    /// The refusal's name, without the column.
    pub fn name(self) -> &'static str
        ensures { result.now ≡ refusal_name self }
    {
        match self {
            Refusal::OutOfMemory => "OutOfMemory",
            Refusal::NoProcess => "NoProcess",
            Refusal::Full => "Full",
            Refusal::NoMoment => "NoMoment",
            Refusal::NoBranch => "NoBranch",
            Refusal::NameTaken => "NameTaken",
            Refusal::Detached => "Detached",
            Refusal::AtStart => "AtStart",
            Refusal::NoObject => "NoObject",
            Refusal::BadLine(_) => "BadLine",
            Refusal::LineTooLong => "LineTooLong",
            Refusal::ClientFull => "ClientFull",
            Refusal::TooManyClients => "TooManyClients",
            Refusal::ReadFault => "ReadFault",
            Refusal::WriteFault => "WriteFault",
            Refusal::BadName => "BadName",
        }
    }
}

impl From<AllocError> for Refusal {
    ghost use Rattle.std.specs.Prelude.{◌≡◌};
    ghost use Rattle.zt_rows.specs.declared.refusals.Refusal.TheVariants as refusal;

    ghost from_gives = { λ _ made. made ≡ refusal.OutOfMemory };

    fn from(_refused: AllocError) -> Refusal {
        Refusal::OutOfMemory
    }
}
