//! Tells which handles are of one object, by the koids of the real system that a log has.

use std::alloc::{AllocError, Global};
use std::collections::HashMap;
use zt_logs::{HandleKoid, LoggedCall};
use zt_rows::HandleValue;

/// The koids that a log tells, and the objects that have them.
#[derive(Drop)]
pub(crate) struct ToldKoids {
    /// The koid of each handle of the line that is gone over.
    line: HashMap<u32, u64>,
    objects: HashMap<u64, usize>,
    /// The object whose peer has a koid, by that koid.
    peers: HashMap<u64, usize>,
    /// The other end of each end that is joined by koids.
    joined: HashMap<usize, usize>,
    /// The objects whose peer's koid a line tells.
    has_peer: HashMap<usize, ()>,
}

impl ToldKoids {
    pub(crate) fn new(alloc: Global) -> ToldKoids {
        ToldKoids {
            line: HashMap::new(alloc),
            objects: HashMap::new(alloc),
            peers: HashMap::new(alloc),
            joined: HashMap::new(alloc),
            has_peer: HashMap::new(alloc),
        }
    }

    /// Begins to go over the line of a call.
    pub(crate) fn begin_line(&mut self, logged: &LoggedCall) -> Result<(), AllocError> {
        if !self.line.is_empty() {
            self.line.clear();
        }
        for told in logged.koids.as_slice() {
            if !told.is_peer {
                put_koid(&mut self.line, told.handle.0, told.koid)?;
            }
        }
        Ok(())
    }

    /// The object of a handle of the line, if its koid came before.
    pub(crate) fn object(&self, handle: HandleValue) -> Option<usize> {
        let koid = self.line.get(&handle.0).copied()?;
        self.objects.get(&koid).copied()
    }

    /// Records the koid of an object, or of its peer. Returns the peer, if its koid is known.
    pub(crate) fn tell(
        &mut self,
        object: usize,
        told: HandleKoid,
    ) -> Result<Option<usize>, AllocError> {
        if told.is_peer {
            put_peer(&mut self.has_peer, object)?;
            put_object(&mut self.peers, told.koid, object)?;
            return Ok(self.objects.get(&told.koid).copied());
        }
        put_object(&mut self.objects, told.koid, object)?;
        Ok(self.peers.get(&told.koid).copied())
    }

    /// Joins two ends.
    pub(crate) fn join(&mut self, one: usize, other: usize) -> Result<(), AllocError> {
        put_end(&mut self.joined, one, other)?;
        put_end(&mut self.joined, other, one)
    }

    /// The end that is joined with this one by koids.
    pub(crate) fn joined(&self, end: usize) -> Option<usize> {
        self.joined.get(&end).copied()
    }

    /// Whether a line tells the koid of an object's peer.
    pub(crate) fn tells_peer(&self, end: usize) -> bool {
        self.has_peer.contains_key(&end)
    }
}

fn put_koid(line: &mut HashMap<u32, u64>, handle: u32, koid: u64) -> Result<(), AllocError> {
    line.insert(handle, koid)?;
    Ok(())
}

fn put_object(
    objects: &mut HashMap<u64, usize>,
    koid: u64,
    object: usize,
) -> Result<(), AllocError> {
    if !objects.contains_key(&koid) {
        objects.insert(koid, object)?;
    }
    Ok(())
}

fn put_peer(has_peer: &mut HashMap<usize, ()>, object: usize) -> Result<(), AllocError> {
    has_peer.insert(object, ())?;
    Ok(())
}

fn put_end(joined: &mut HashMap<usize, usize>, one: usize, other: usize) -> Result<(), AllocError> {
    joined.insert(one, other)?;
    Ok(())
}
