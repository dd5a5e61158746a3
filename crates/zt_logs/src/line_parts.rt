//! Lines that are several calls of the semantics, or a call of another name.

use crate::other_kinds::OtherKind;

/// How a line is written as calls of the semantics.
#[derive(Clone, Copy, Debug, PartialEq, Eq)]
pub enum LineForm {
    /// One call of the semantics, under its own name.
    Plain,
    /// `handle_close_many`: a close of each handle.
    CloseMany,
    /// `channel_write_etc`: the calls that make the handles that are sent, and a write.
    WriteEtc,
    /// `channel_read_etc`: a read.
    ReadEtc,
    /// `channel_call`: a write, and a read for some statuses.
    ChannelCall,
    /// `channel_call_etc`: the calls that make the handles that are sent, a write, and a read for some statuses.
    ChannelCallEtc,
    /// `process_create`: an event for the address space, if the line gives a handle to it, and a spawn.
    Create,
    /// `process_start`: the spawn of a process that another line made. `job` has the handle of that process.
    Start,
    /// A call that makes or gives an object of a kind that the semantics does not have. An event or an event pair stands in
    /// for it.
    StandIn(OtherKind),
}

impl LineForm {
    /// The name of the line's call, if it is none of the semantics. None for a stand-in too.
    pub fn word(self) -> Option<&'static str> {
        match self {
            LineForm::Plain | LineForm::StandIn(_) => None,
            LineForm::CloseMany => Some("handle_close_many"),
            LineForm::WriteEtc => Some("channel_write_etc"),
            LineForm::ReadEtc => Some("channel_read_etc"),
            LineForm::ChannelCall => Some("channel_call"),
            LineForm::ChannelCallEtc => Some("channel_call_etc"),
            LineForm::Create => Some("process_create"),
            LineForm::Start => Some("process_start"),
        }
    }
}

/// Which lines a log has of those that an import has to go over the calls for.
#[derive(Clone, Copy, Debug)]
pub struct SeenForms {
    /// Whether a line is a `process_start`.
    pub starts: bool,
    /// Whether a line is a `channel_call` or a `channel_call_etc`.
    pub requests: bool,
    /// Whether a line makes or gives an object for which another one stands in.
    pub stand_ins: bool,
}

impl SeenForms {
    pub(crate) fn none() -> SeenForms {
        SeenForms {
            starts: false,
            requests: false,
            stand_ins: false,
        }
    }

    /// Adds the form of a line.
    pub(crate) fn see(&mut self, form: LineForm) {
        match form {
            LineForm::Start => self.starts = true,
            LineForm::ChannelCall | LineForm::ChannelCallEtc => self.requests = true,
            LineForm::StandIn(_) => self.stand_ins = true,
            _ => {}
        }
    }
}

/// Which of the calls of its line a call is.
#[derive(Clone, Copy, Debug, PartialEq, Eq)]
pub struct LinePart {
    /// How many calls of the line stand ahead of it.
    pub ahead: usize,
    /// How many calls the line has.
    pub count: usize,
    /// The place, from 0, of the handle that this call gives in the message that the line writes.
    pub gives: Option<usize>,
    pub form: LineForm,
    /// Whether the call stands apart from the rest of its line. Then another call of the line counts as the line.
    pub is_apart: bool,
}
