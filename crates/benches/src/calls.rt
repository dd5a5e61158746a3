//! Calls of the first process, in two rows that repeat. Twelve mixed calls leave an event and one handle to it. Four
//! leaking calls leave an event and a leaked end of a channel.

use std::alloc::{AllocError, Global};
use zt_bits::Signals;
use zt_rows::{Call, HandleValue, Parcel};

/// The handle of the port that the first call makes.
const PORT: HandleValue = HandleValue(7);

/// How many handles twelve mixed calls give.
const HANDLES: u32 = 5;

/// The handle that is the `n`-th, from 0, of those that a turn of twelve calls gives.
fn handle(turn: u32, n: u32) -> HandleValue {
    let given = turn.saturating_mul(HANDLES).saturating_add(n);
    HandleValue(given.saturating_mul(4).saturating_add(11))
}

/// The mixed call of this number: first a port, and then twelve calls in turn.
pub fn mixed(alloc: Global, number: u32) -> Result<Call, AllocError> {
    if number == 0 {
        return Ok(Call::PortCreate);
    }
    let turn = (number - 1) / 12;
    match (number - 1) % 12 {
        4 => send(alloc, handle(turn, 1), handle(turn, 3)),
        step => Ok(plain(turn, step)),
    }
}

/// The leaking call of this number: four calls in turn. They make a channel, send its far end through the near one, close
/// that, and make an event.
pub fn leak(alloc: Global, number: u32) -> Result<Call, AllocError> {
    let near = (number / 4).saturating_mul(12).saturating_add(7);
    let far = HandleValue(near.saturating_add(4));
    match number % 4 {
        0 => Ok(Call::ChannelCreate),
        1 => send(alloc, HandleValue(near), far),
        2 => Ok(close(HandleValue(near))),
        _ => Ok(Call::EventCreate),
    }
}

/// A write that sends one handle.
fn send(alloc: Global, through: HandleValue, sent: HandleValue) -> Result<Call, AllocError> {
    let bytes = Vec::from_slice(alloc, b"hello")?;
    let handles = Vec::from_slice(alloc, [sent].as_slice())?;
    let parcel = Parcel::new(bytes, handles).ok_or(AllocError)?;
    Ok(Call::ChannelWrite {
        handle: through,
        parcel,
    })
}

/// The call at this step of a turn, unless it is the write.
fn plain(turn: u32, step: u32) -> Call {
    match step {
        0 => Call::EventCreate,
        1 => Call::ChannelCreate,
        2 => Call::HandleDuplicate {
            handle: handle(turn, 0),
            rights: 0x8000_0000,
        },
        3 => wait(handle(turn, 0)),
        5 => signal(handle(turn, 0), 0, 0x8),
        6 => Call::PortWait { port: PORT },
        7 => signal(handle(turn, 0), 0x8, 0),
        8 => read(handle(turn, 2)),
        9 => close(handle(turn, 4)),
        10 => close(handle(turn, 1)),
        _ => close(handle(turn, 2)),
    }
}

/// A wait that sends its packet to the port.
pub fn wait(handle: HandleValue) -> Call {
    Call::ObjectWaitAsync {
        handle,
        port: PORT,
        key: 1,
        signals: Signals(0x8),
        edge: false,
    }
}

pub fn signal(handle: HandleValue, clear: u32, set: u32) -> Call {
    Call::ObjectSignal {
        handle,
        clear: Signals(clear),
        set: Signals(set),
    }
}

fn read(handle: HandleValue) -> Call {
    Call::ChannelRead {
        handle,
        bytes: 16,
        handles: 4,
        discard: false,
    }
}

fn close(handle: HandleValue) -> Call {
    Call::HandleClose { handle }
}
