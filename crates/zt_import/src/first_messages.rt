//! Finds the ends at which a message was the first to be written.

use crate::seen_objects::SeenObjects;
use std::alloc::{AllocError, Global};
use std::collections::HashMap;

/// The adopted ends at which one message was written first, in the order of those writes.
#[derive(Drop)]
struct Writers {
    ends: Vec<usize>,
    /// How many of the ends were taken or passed over, from the first on.
    taken: usize,
}

/// The adopted ends, by the bytes and the number of handles of the first message that was written at them.
#[derive(Drop)]
pub(crate) struct FirstMessages {
    alloc: Global,
    writers: HashMap<(Vec<u8>, usize), Writers>,
}

impl FirstMessages {
    pub(crate) fn new(alloc: Global) -> FirstMessages {
        FirstMessages {
            alloc,
            writers: HashMap::new(alloc),
        }
    }

    /// Adds an end at which this message was written first. The error is an allocation failure.
    pub(crate) fn add(
        &mut self,
        bytes: &[u8],
        handles: usize,
        end: usize,
    ) -> Result<(), AllocError> {
        let key = (Vec::from_slice(self.alloc, bytes)?, handles);
        if let Some(writers) = self.writers.get_mut(&key) {
            writers.ends.push(end)?;
            return Ok(());
        }
        let mut ends = Vec::new(self.alloc);
        ends.push(end)?;
        self.writers.insert(key, Writers { ends, taken: 0 })?;
        Ok(())
    }

    /// The ends at which this message was written first.
    pub(crate) fn ends(&self, bytes: &[u8], handles: usize) -> Result<&[usize], AllocError> {
        let key = (Vec::from_slice(self.alloc, bytes)?, handles);
        match self.writers.get(&key) {
            Some(writers) => Ok(writers.ends.as_slice()),
            None => Ok(&[]),
        }
    }

    /// Takes the first end at which this message was written first and whose peer may still be found, other than `but`. The
    /// ends before it are passed over from then on.
    pub(crate) fn take(
        &mut self,
        bytes: &[u8],
        handles: usize,
        objects: &SeenObjects,
        but: usize,
    ) -> Result<Option<usize>, AllocError> {
        let key = (Vec::from_slice(self.alloc, bytes)?, handles);
        match self.writers.get_mut(&key) {
            Some(writers) => Ok(take_open(writers, objects, but)),
            None => Ok(None),
        }
    }
}

fn take_open(writers: &mut Writers, objects: &SeenObjects, but: usize) -> Option<usize> {
    for place in writers.taken..writers.ends.len() {
        let end = writers.ends[place];
        writers.taken = place.saturating_add(1);
        if end != but && objects.is_open(end) {
            return Some(end);
        }
    }
    None
}
