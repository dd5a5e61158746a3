//! A call at a moment that is no head, and a head that moves, over one history each.

use std::alloc::Global;
use zt_history::History;
use zt_rows::{Call, HandleValue, Moment, ROOT_PROCESS, Reply};

/// Whether the store is at the last moment, which is this one, and the moment's reply is this handle.
fn tells(history: &History, moment: u32, handle: u32) -> bool {
    let last = history.last();
    match history.reply_of(last) {
        Some(Reply::Handle(given)) => {
            last == Moment(moment) && history.position() == last && *given == HandleValue(handle)
        }
        _ => false,
    }
}

/// Whether the first process makes an event on `main`, with this moment and this handle.
fn tells_on_main(history: &mut History, moment: u32, handle: u32) -> bool {
    match history.find(b"main") {
        Some(id) => {
            history.call(id, ROOT_PROCESS, &Call::EventCreate).is_ok()
                && tells(history, moment, handle)
        }
        None => false,
    }
}

/// Whether the first process makes an event at a moment, with this moment and this handle.
fn tells_at(history: &mut History, parent: u32, moment: u32, handle: u32) -> bool {
    history
        .call_at(Moment(parent), ROOT_PROCESS, &Call::EventCreate)
        .is_ok()
        && tells(history, moment, handle)
}

/// Whether this moment is the head of `main`.
fn has_head(history: &History, moment: u32) -> bool {
    match history.find(b"main") {
        Some(id) => history.head(id) == Moment(moment),
        None => false,
    }
}

/// Whether an event can be made at the opening beside the one on `main`, whose head stays.
fn is_moment_made_at_the_opening(history: &mut History) -> bool {
    tells_on_main(history, 1, 7)
        && tells_at(history, 0, 2, 7)
        && has_head(history, 1)
        && !history.can_retract()
}

/// Whether the head of `main` moves to this moment, and the store stays.
fn moves_head(history: &mut History, moment: u32) -> bool {
    let position = history.position();
    match history.find(b"main") {
        Some(id) => {
            history.move_head(id, Moment(moment)).is_ok() && history.position() == position
        }
        None => false,
    }
}

/// Whether a call on `main` is made behind the head that was moved.
fn is_moved_head_called_at(history: &mut History) -> bool {
    tells_on_main(history, 1, 7)
        && tells_on_main(history, 2, 11)
        && moves_head(history, 1)
        && has_head(history, 1)
        && tells_on_main(history, 3, 11)
        && has_head(history, 3)
}

/// A trial over a history at the opening.
#[derive(Clone, Copy)]
enum Trial {
    MomentAtTheOpening,
    MovedHead,
}

/// Whether the trial holds over a new history.
fn holds(alloc: Global, trial: Trial) -> bool {
    match History::new(alloc) {
        Ok(mut history) => match trial {
            Trial::MomentAtTheOpening => is_moment_made_at_the_opening(&mut history),
            Trial::MovedHead => is_moved_head_called_at(&mut history),
        },
        Err(_) => false,
    }
}

#[test]
fn a_moment_is_made_at_the_opening(rt: HostRuntime) {
    assert!(rt; holds(rt.alloc(), Trial::MomentAtTheOpening));
}

#[test]
fn a_head_that_moved_is_called_at(rt: HostRuntime) {
    assert!(rt; holds(rt.alloc(), Trial::MovedHead));
}
