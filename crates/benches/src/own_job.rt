//! Processes under the job of the process that makes them.

use crate::histories::makes;
use zt_history::History;
use zt_rows::{Call, FIRST_HANDLE, HandleValue};

/// Makes this many processes under the caller's own job, with an event after each.
pub(crate) fn makes_siblings(history: &mut History, count: u32) -> bool {
    let spawn = Ok(Call::Spawn {
        job: FIRST_HANDLE,
        argument: HandleValue(0),
    });
    for _ in 0..count {
        if !makes(history, &spawn) || !makes(history, &Ok(Call::EventCreate)) {
            return false;
        }
    }
    true
}
