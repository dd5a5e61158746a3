//! The lines of answers, if no allocation fails.

use std::alloc::{AllocError, Global};
use zt_bits::{Kind, Rights, Signals, Status};
use zt_history::History;
use zt_look::{
    CallCount, CallMade, Change, Fate, Handle, MessageEnd, Naming, ObjectEvent, ObjectFate,
    ObjectLook, QueuedMessage, print_branch, print_call_count, print_call_made, print_change,
    print_event, print_fate, print_handle, print_object, print_queued_message, print_when,
};
use zt_rows::{
    Call, HandleValue, Happening, Held, Items, Koid, Message, Moment, ObjectRow, Packet, ROOT_JOB,
    ROOT_PROCESS, Reply, Row, RowKey, Support,
};

/// Whether this text was printed.
fn is_text(printed: Result<Vec<u8>, AllocError>, wanted: &[u8]) -> bool {
    match printed {
        Ok(text) => text.as_slice() == wanted,
        Err(_) => false,
    }
}

/// The call that closes handle 7.
fn closing() -> Call {
    Call::HandleClose {
        handle: HandleValue(7),
    }
}

/// Names in place of masks, for the signals of a job.
fn of_a_job() -> Naming {
    Naming {
        names: true,
        kind: Some(Kind::Job),
    }
}

#[test]
fn calls_are_printed(rt: HostRuntime) {
    let made = CallMade {
        moment: Moment(3),
        process: ROOT_PROCESS,
        call: closing(),
        reply: Reply::Status(Status::Ok),
    };
    assert!(rt;
        is_text(
            print_call_made(rt.alloc(), &made, Naming::masks()),
            b"3 1025 handle_close 7 => ok\n"
        )
    );
    let fired = CallMade {
        moment: Moment(4),
        process: ROOT_PROCESS,
        call: Call::HandleReplace {
            handle: HandleValue(7),
            rights: 0x80000000,
        },
        reply: Reply::Packet(Packet::Signal {
            key: 4,
            trigger: Signals(0x8),
            observed: Signals(0x1000009),
            process: ROOT_PROCESS,
            handle: HandleValue(7),
        }),
    };
    assert!(rt;
        is_text(
            print_call_made(rt.alloc(), &fired, of_a_job()),
            b"4 1025 handle_replace 7 SAME_RIGHTS => ok signal 4 TERMINATED READABLE|TERMINATED|USER_0\n"
        )
    );
}

/// The row of a process.
fn process_row() -> ObjectRow {
    let mut row = ObjectRow::new(Kind::Process, ROOT_JOB);
    row.signals = Signals(0x8);
    row
}

#[test]
fn changes_are_printed(rt: HostRuntime) {
    let change = Change {
        key: RowKey::Object(ROOT_PROCESS),
        before: Some(Row::Object(ObjectRow::new(Kind::Process, ROOT_JOB))),
        after: Some(Row::Object(process_row())),
    };
    assert!(rt;
        is_text(
            print_change(rt.alloc(), &change, Naming::of_any(true)),
            b"- object 1025 process NONE 1024 live 0\n+ object 1025 process TERMINATED 1024 live 0\n"
        )
    );
}

#[test]
fn handles_are_printed(rt: HostRuntime) {
    let handle = Handle {
        value: HandleValue(7),
        koid: Koid(1026),
        kind: Kind::Job,
        rights: Rights(0x4000000f),
    };
    assert!(rt;
        is_text(
            print_handle(rt.alloc(), &handle, false),
            b"7 1026 job 0x4000000f\n"
        )
    );
    assert!(rt;
        is_text(
            print_handle(rt.alloc(), &handle, true),
            b"7 1026 job DUPLICATE|TRANSFER|READ|WRITE|0x40000000\n"
        )
    );
}

#[test]
fn events_are_printed(rt: HostRuntime) {
    let event = ObjectEvent {
        moment: Moment(8),
        koid: Koid(1030),
        what: Happening::Made,
        kind: Kind::Event,
    };
    assert!(rt;
        is_text(
            print_event(rt.alloc(), &event, ROOT_PROCESS, &Call::EventCreate, false),
            b"8 made 1030 event 1025 event_create\n"
        )
    );
    let call = closing();
    assert!(rt;
        is_text(
            print_when(
                rt.alloc(),
                Happening::Leaked,
                &Some((Moment(9), ROOT_PROCESS, &call)),
                false
            ),
            b"leaked 9 1025 handle_close 7\n"
        )
    );
    assert!(rt;
        is_text(
            print_when(rt.alloc(), Happening::Ended, &None, false),
            b"ended never\n"
        )
    );
}

/// A message with a handle and no bytes, and what became of it.
fn queued(alloc: Global, ended: Option<(Moment, MessageEnd)>) -> Option<QueuedMessage> {
    let held = Held {
        koid: Koid(1027),
        rights: Rights(0x3),
    };
    let Ok(handles) = Vec::from_slice(alloc, &[held]) else {
        return None;
    };
    match Message::new(Items::new(Vec::new(alloc)), Items::new(handles)) {
        Some(message) => Some(QueuedMessage {
            number: 2,
            message,
            written: Moment(4),
            ended,
        }),
        None => None,
    }
}

/// Whether a message that was lost is printed.
fn is_message_printed(alloc: Global) -> bool {
    let call = closing();
    match queued(alloc, Some((Moment(6), MessageEnd::Lost))) {
        Some(message) => is_text(
            print_queued_message(
                alloc,
                &message,
                ROOT_PROCESS,
                &call,
                &Some((ROOT_PROCESS, &call)),
                true,
            ),
            b"2 message - 1027:DUPLICATE|TRANSFER\n2 written 4 1025 handle_close 7\n2 lost 6 1025 handle_close 7\n",
        ),
        None => false,
    }
}

#[test]
fn messages_are_printed(rt: HostRuntime) {
    assert!(rt; is_message_printed(rt.alloc()));
}

#[test]
fn branches_are_printed(rt: HostRuntime) {
    assert!(rt;
        is_text(
            print_branch(rt.alloc(), b"main", Moment(30), &None),
            b"branch main 30\n"
        )
    );
    assert!(rt;
        is_text(
            print_branch(
                rt.alloc(),
                b"fix",
                Moment(12),
                &Some((b"main".as_slice(), Moment(7)))
            ),
            b"branch fix 12 leaves main 7\n"
        )
    );
}

/// Whether a process that is its own holder is printed.
fn is_object_printed(alloc: Global) -> bool {
    let Ok(holders) = Vec::from_slice(alloc, &[Support::Itself]) else {
        return false;
    };
    let object = ObjectLook {
        koid: ROOT_PROCESS,
        row: Some(process_row()),
        holders: Items::new(holders),
        messages: Vec::new(alloc),
        packets: Vec::new(alloc),
        waits: Vec::new(alloc),
        made: None,
        ended: None,
        peer_closed: None,
        leaked: None,
    };
    let Ok(history) = History::new(alloc) else {
        return false;
    };
    is_text(
        print_object(alloc, &object, false, history.store()),
        b"object 1025 process 0x00000008 1024 live 0\nholders 1025 1\nself\n",
    )
}

#[test]
fn objects_are_printed(rt: HostRuntime) {
    assert!(rt; is_object_printed(rt.alloc()));
}

#[test]
fn counts_are_printed(rt: HostRuntime) {
    let count = CallCount {
        process: ROOT_PROCESS,
        status: Status::BadHandle,
        count: 3,
    };
    assert!(rt;
        is_text(
            print_call_count(rt.alloc(), &count),
            b"calls 1025 bad_handle 3\n"
        )
    );
    let fate = ObjectFate {
        koid: ROOT_JOB,
        kind: Kind::Job,
        fate: Fate::Alive,
        since: Moment(0),
    };
    assert!(rt; is_text(print_fate(rt.alloc(), &fate), b"alive 1024 job 0\n"));
}
