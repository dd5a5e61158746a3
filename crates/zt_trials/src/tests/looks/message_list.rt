//! The messages of a history of few calls, if no allocation fails.

use std::alloc::Global;
use zt_history::History;
use zt_look::{MessageEnd, QueuedMessage, messages};
use zt_rows::{Call, HandleValue, Koid, Moment, Parcel, ROOT_PROCESS};

/// The second end of the channel, at which the messages are queued.
const END: Koid = Koid(1027);

/// Whether the first process makes this call on `main`.
fn is_called(history: &mut History, call: &Call) -> bool {
    match history.find(b"main") {
        Some(main) => history.call(main, ROOT_PROCESS, call).is_ok(),
        None => false,
    }
}

/// Whether the first process writes an empty message by the handle.
fn is_written(alloc: Global, history: &mut History, handle: HandleValue) -> bool {
    match Parcel::new(Vec::new(alloc), Vec::new(alloc)) {
        Some(parcel) => is_called(history, &Call::ChannelWrite { handle, parcel }),
        None => false,
    }
}

/// Whether the first process reads a message by the handle.
fn is_read(history: &mut History, handle: HandleValue) -> bool {
    let call = Call::ChannelRead {
        handle,
        bytes: 0,
        handles: 0,
        discard: false,
    };
    is_called(history, &call)
}

/// The history in which the first process makes a channel, writes twice, reads once, and closes the end with the messages.
fn two_messages(alloc: Global) -> Option<History> {
    let Ok(mut history) = History::new(alloc) else {
        return None;
    };
    let first = HandleValue(7);
    let second = HandleValue(11);
    if is_called(&mut history, &Call::ChannelCreate)
        && is_written(alloc, &mut history, first)
        && is_written(alloc, &mut history, first)
        && is_read(&mut history, second)
        && is_called(&mut history, &Call::HandleClose { handle: second })
    {
        Some(history)
    } else {
        None
    }
}

/// Whether the message came at this moment.
fn came_at(queued: &QueuedMessage, moment: Moment) -> bool {
    queued.written == moment
}

/// Whether the message was read at this moment.
fn is_read_at(queued: &QueuedMessage, moment: Moment) -> bool {
    match queued.ended {
        Some((last, MessageEnd::Read)) => last == moment,
        _ => false,
    }
}

/// Whether the message was lost at this moment.
fn is_lost_at(queued: &QueuedMessage, moment: Moment) -> bool {
    match queued.ended {
        Some((last, MessageEnd::Lost)) => last == moment,
        _ => false,
    }
}

/// Whether these are both messages. The first was read. The second was lost if `closed` is set, and else still waits.
fn are_both(list: &[QueuedMessage], closed: bool) -> bool {
    match list {
        [first, second] => {
            came_at(first, Moment(2))
                && is_read_at(first, Moment(4))
                && came_at(second, Moment(3))
                && (is_lost_at(second, Moment(5)) == closed)
        }
        _ => false,
    }
}

/// Whether both messages are found as of this moment.
fn are_told(alloc: Global, at: Moment, closed: bool) -> bool {
    match two_messages(alloc) {
        Some(mut history) => match messages(alloc, &mut history, at, END) {
            Ok(list) => are_both(list.as_slice(), closed),
            Err(_) => false,
        },
        None => false,
    }
}

#[test]
fn a_message_is_read_and_one_is_lost(rt: HostRuntime) {
    assert!(rt; are_told(rt.alloc(), Moment(5), true));
}

#[test]
fn a_message_waits(rt: HostRuntime) {
    assert!(rt; are_told(rt.alloc(), Moment(4), false));
}

/// Whether messages of an object are refused at a moment at which it is not known.
fn is_unknown(alloc: Global) -> bool {
    match two_messages(alloc) {
        Some(mut history) => messages(alloc, &mut history, Moment(0), END).is_err(),
        None => false,
    }
}

#[test]
fn an_unknown_object_is_refused(rt: HostRuntime) {
    assert!(rt; is_unknown(rt.alloc()));
}
