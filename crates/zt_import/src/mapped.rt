//! The processes and handles of a trace that stand for those of its log.

use std::alloc::{AllocError, Global};
use std::collections::HashMap;
use zt_rows::{HandleValue, Koid};

/// A handle of a process of the log, and the value that stands for it in the trace.
#[derive(Clone, Copy)]
pub(crate) struct MappedHandle {
    pub(crate) process: u64,
    pub(crate) handle: HandleValue,
    pub(crate) value: HandleValue,
}

/// What stands for the processes and handles of a log.
#[derive(Drop)]
pub(crate) struct Mapped {
    pub(crate) processes: HashMap<u64, Koid>,
    /// All that were ever mapped, in the order in which they were.
    pub(crate) handles: Vec<MappedHandle>,
}

impl Mapped {
    pub(crate) fn new(alloc: Global) -> Mapped {
        Mapped {
            processes: HashMap::new(alloc),
            handles: Vec::new(alloc),
        }
    }

    /// The processes of the trace with their numbers in the log, by their koids.
    pub(crate) fn in_order(&self) -> Result<Vec<(Koid, u64)>, AllocError> {
        let mut found = Vec::new(*self.handles.allocator());
        for (number, koid) in self.processes.iter() {
            found.push((*koid, *number))?;
        }
        found.sort_by_key(|process| process.0.0)?;
        Ok(found)
    }
}
