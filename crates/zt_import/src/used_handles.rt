//! The handles that a call uses.

use std::alloc::{AllocError, Global};
use zt_rows::{Call, HandleValue};

/// The handles in a call's arguments. They take memory only if a message has some.
#[derive(Drop)]
pub(crate) struct UsedHandles {
    /// The handles of a call that sends none, and 0 behind them.
    few: [HandleValue; 2],
    /// How many of `few` are handles.
    count: usize,
    /// The handles of a call that sends some.
    many: Vec<HandleValue>,
}

impl UsedHandles {
    /// The handles, in order.
    pub(crate) fn as_slice(&self) -> &[HandleValue] {
        if self.many.is_empty() {
            &self.few[..self.count.min(2)]
        } else {
            self.many.as_slice()
        }
    }
}

/// The handles in a call's arguments, in order, without 0. The error is an allocation failure.
pub(crate) fn handles_in(alloc: Global, call: &Call) -> Result<UsedHandles, AllocError> {
    let mut many = Vec::new(alloc);
    if let Call::ChannelWrite { handle, parcel } = call {
        if parcel.handles().len() > 0 {
            push_used(&mut many, *handle)?;
            for sent in parcel.handles().as_slice() {
                push_used(&mut many, *sent)?;
            }
            return Ok(UsedHandles {
                few: [HandleValue(0); 2],
                count: 0,
                many,
            });
        }
    }
    let (few, count) = few_of(single_handles(call));
    Ok(UsedHandles { few, count, many })
}

/// Those of two handles that are not 0, with 0 behind them, and how many they are.
fn few_of(handles: (HandleValue, HandleValue)) -> ([HandleValue; 2], usize) {
    let none = HandleValue(0);
    let (first, second) = handles;
    match (first.0, second.0) {
        (0, 0) => ([none, none], 0),
        (0, _) => ([second, none], 1),
        (_, 0) => ([first, none], 1),
        _ => ([first, second], 2),
    }
}

fn push_used(handles: &mut Vec<HandleValue>, handle: HandleValue) -> Result<(), AllocError> {
    if handle.0 != 0 {
        handles.push(handle)?;
    }
    Ok(())
}

/// The first and the second handle in a call's arguments; 0 if there is none.
fn single_handles(call: &Call) -> (HandleValue, HandleValue) {
    let none = HandleValue(0);
    match call {
        Call::HandleClose { handle }
        | Call::HandleDuplicate { handle, .. }
        | Call::HandleReplace { handle, .. }
        | Call::ObjectSignal { handle, .. }
        | Call::ObjectSignalPeer { handle, .. }
        | Call::ChannelWrite { handle, .. }
        | Call::ChannelRead { handle, .. }
        | Call::TaskKill { handle } => (*handle, none),
        Call::ObjectWaitAsync { handle, port, .. } => (*handle, *port),
        Call::PortQueue { port, .. } | Call::PortWait { port } => (*port, none),
        Call::PortCancel { port, source, .. } => (*port, *source),
        Call::JobCreate { job } => (*job, none),
        Call::Spawn { job, argument } => (*job, *argument),
        Call::JobSetCritical { job, process } => (*job, *process),
        Call::EventCreate
        | Call::EventPairCreate
        | Call::ChannelCreate
        | Call::PortCreate
        | Call::ProcessExit { .. } => (none, none),
    }
}
