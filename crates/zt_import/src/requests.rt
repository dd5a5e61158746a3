//! Moves the write of a `channel_call` ahead of the read of its message, which another process makes before the call
//! returns.

use crate::order::MOST_LINES;
use crate::started::Places;
use std::alloc::{AllocError, Global};
use std::collections::HashMap;
use zt_bits::Status;
use zt_logs::{CallLog, Cause, LineForm, LinePart, LogFault, LoggedCall};
use zt_rows::Call;

/// Moves the write of each `channel_call` right before a read of its message by another process. That is the last matching
/// read, at most `MOST_LINES` calls before the line, that no earlier `channel_call` took. If there is none, the write stays
/// at its line. The error is an allocation failure, at line 0.
pub fn place_requests(alloc: Global, log: &mut CallLog) -> Result<(), LogFault> {
    if !log.forms.requests {
        return Ok(());
    }
    match placed(alloc, log) {
        Ok(()) => Ok(()),
        Err(_) => Err(Cause::OutOfMemory.at(0)),
    }
}

fn placed(alloc: Global, log: &mut CallLog) -> Result<(), AllocError> {
    let mut places = Places::new(alloc);
    let mut taken = HashMap::new(alloc);
    for number in 0..log.calls.len() {
        if let Some(read) = read_of(log.calls.as_slice(), &taken, number) {
            taken.insert(read, ())?;
            put_all(log.calls.as_mut_slice(), &mut places, number, read)?;
        }
    }
    places.apply(alloc, log)
}

/// Whether a call is the write of a `channel_call` that is not `bad_handle`, `access_denied` or `invalid_args`.
fn is_request(logged: &LoggedCall) -> bool {
    matches!(
        logged.part.form,
        LineForm::ChannelCall | LineForm::ChannelCallEtc
    ) && matches!(logged.call, Call::ChannelWrite { .. })
        && !matches!(
            logged.recorded.status,
            Some(Status::BadHandle | Status::AccessDenied | Status::InvalidArgs)
        )
}

/// The last read ahead of this call that reads its message and is not taken, if this call is the write of a `channel_call`.
fn read_of(calls: &[LoggedCall], taken: &HashMap<usize, ()>, number: usize) -> Option<usize> {
    let request = calls.get(number)?;
    if !is_request(request) {
        return None;
    }
    for back in 1..=(MOST_LINES as usize).min(number) {
        let place = number.saturating_sub(back);
        if !taken.contains_key(&place) && reads(calls.get(place)?, request) {
            return Some(place);
        }
    }
    None
}

/// Whether a call reads the message of `request`, by its bytes and the number of its handles.
fn reads(logged: &LoggedCall, request: &LoggedCall) -> bool {
    let Call::ChannelWrite { parcel, .. } = &request.call else {
        return false;
    };
    if logged.process == request.process || !matches!(logged.call, Call::ChannelRead { .. }) {
        return false;
    }
    match &logged.recorded.bytes {
        Some(bytes) => {
            bytes.as_slice() == parcel.bytes().as_slice()
                && logged.recorded.handles.len() == parcel.handles().len()
        }
        None => false,
    }
}

/// Moves the write of a `channel_call` ahead of its read, with the calls that make the handles it sends. They count as ok.
fn put_all(
    calls: &mut [LoggedCall],
    places: &mut Places,
    number: usize,
    read: usize,
) -> Result<(), AllocError> {
    let Some(request) = calls.get(number) else {
        return Ok(());
    };
    let LinePart { ahead, count, .. } = request.part;
    let written = ahead.saturating_add(1);
    for place in number.saturating_sub(ahead)..=number {
        places.put(place, read)?;
        if let Some(logged) = calls.get_mut(place) {
            logged.part.count = written;
            logged.part.is_apart = written < count;
            logged.recorded.status = Some(Status::Ok);
        }
    }
    if written < count {
        stand_alone(calls, number.saturating_add(1));
    }
    Ok(())
}

/// Makes the call of this number the only one of its line.
fn stand_alone(calls: &mut [LoggedCall], number: usize) {
    if let Some(logged) = calls.get_mut(number) {
        logged.part.ahead = 0;
        logged.part.count = 1;
    }
}
