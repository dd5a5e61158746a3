//! Fixed numbers: the first koids, the first handle value, and the limits of messages, histories and books.

use crate::numbers::{HandleValue, Koid};

/// The koid of the root job, which supports itself and is never leaked.
pub const ROOT_JOB: Koid = Koid(1024);

/// The koid of the root process, which is under the root job at the opening.
pub const ROOT_PROCESS: Koid = Koid(1025);

/// The first handle value of a process. The root process has its handle to the root job there, and a spawned process
/// its argument, if it has one.
pub const FIRST_HANDLE: HandleValue = HandleValue(3);

/// The most bytes that a message carries.
pub const MESSAGE_BYTES: usize = 65_536;

/// The most handles that a message carries.
pub const MESSAGE_HANDLES: usize = 64;

/// The last moment that a history can have, and so the most calls.
pub const LAST_MOMENT: u32 = 1_048_576;

/// The most clients of a book.
pub const CLIENTS: u8 = 4;

/// The most commands that a book answers to one client.
pub const CLIENT_ROWS: u32 = 4096;
