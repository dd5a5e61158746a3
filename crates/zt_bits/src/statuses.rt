//! Statuses of system calls, with their words and numbers.

ghost use Rattle.std.specs.Prelude.{◌≡◌};
ghost use Rattle.zt_bits.specs.Words.{status_number, status_word};

/// The status of a system call: `Ok`, or why it did not do what was asked.
#[derive(Clone, Copy, Debug, PartialEq, Eq)]
pub enum Status {
    Ok,
    BadHandle,
    WrongType,
    AccessDenied,
    InvalidArgs,
    NotSupported,
    PeerClosed,
    ShouldWait,
    BufferTooSmall,
    TimedOut,
    BadState,
    OutOfRange,
    NotFound,
    AlreadyBound,
}

impl Status {
    /// The word for the status, as answers show it.
    pub fn word(self) -> &'static str
        ensures { result.now ≡ status_word self }
    {
        match self {
            Status::Ok => "ok",
            Status::BadHandle => "bad_handle",
            Status::WrongType => "wrong_type",
            Status::AccessDenied => "access_denied",
            Status::InvalidArgs => "invalid_args",
            Status::NotSupported => "not_supported",
            Status::PeerClosed => "peer_closed",
            Status::ShouldWait => "should_wait",
            Status::BufferTooSmall => "buffer_too_small",
            Status::TimedOut => "timed_out",
            Status::BadState => "bad_state",
            Status::OutOfRange => "out_of_range",
            Status::NotFound => "not_found",
            Status::AlreadyBound => "already_bound",
        }
    }
    /// The place of the status in the list of variants, from 0.
    pub fn number(self) -> u8
        ensures { result ≡ status_number self }
    {
        match self {
            Status::Ok => 0,
            Status::BadHandle => 1,
            Status::WrongType => 2,
            Status::AccessDenied => 3,
            Status::InvalidArgs => 4,
            Status::NotSupported => 5,
            Status::PeerClosed => 6,
            Status::ShouldWait => 7,
            Status::BufferTooSmall => 8,
            Status::TimedOut => 9,
            Status::BadState => 10,
            Status::OutOfRange => 11,
            Status::NotFound => 12,
            Status::AlreadyBound => 13,
        }
    }
}
