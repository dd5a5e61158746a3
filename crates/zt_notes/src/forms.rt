//! What the fields of a line are: by the question, by the words of the line, and by the name of the call that it shows.

ghost use Rattle.std.specs.Prelude.{◌≡◌};
ghost use Rattle.zt_notes.specs.Forms.{arguments_of, count_form, form_of, lister_of, message_form, object_form, origin_form, place_form, row_form, step_form, takes_handle, takes_two_handles, tells_when, values_of, gives_handle, gives_two_handles};

use crate::cuts::is;
use crate::shapes::{Field, Shape};
use zt_rows::Koid;

/// What the first fields of each line are that answers the question.
pub fn form_of(shape: &Shape) -> &'static [Field]
    ensures { result.now ≡ form_of shape.now }
{
    match *shape {
        Shape::Calls => &[Field::Moment, Field::Process, Field::Call],
        Shape::Changes => &[Field::Plain, Field::Row],
        Shape::Events => &[
            Field::Moment,
            Field::Plain,
            Field::Object,
            Field::Plain,
            Field::Process,
            Field::Call,
        ],
        Shape::Object => &[Field::Row],
        Shape::Handles(_) => &[Field::Handle, Field::Object],
        Shape::Messages => &[Field::Plain, Field::Message],
        Shape::Branches => &[],
        Shape::Summary => &[Field::Count],
        Shape::Alive => &[
            Field::Object,
            Field::Plain,
            Field::Plain,
            Field::Moment,
            Field::Process,
            Field::Call,
        ],
        Shape::Life => &[Field::Moment, Field::Step],
        Shape::Lineage => &[Field::Place],
    }
}

/// The process whose handles the lines list from their first field on, or 0.
pub fn lister_of(shape: &Shape) -> Koid
    ensures { result ≡ lister_of shape.now }
{
    match *shape {
        Shape::Handles(process) => process,
        _ => Koid(0),
    }
}

/// What follows the first word of a row, or of a line about an object.
pub fn row_form(word: &[u8]) -> &'static [Field]
    ensures { result.now ≡ row_form word.now }
{
    if is(word, "object") {
        &[
            Field::Object,
            Field::Plain,
            Field::Plain,
            Field::Object,
            Field::Plain,
            Field::Plain,
            Field::Critical,
        ]
    } else if is(word, "entry") {
        &[Field::Process, Field::Handle, Field::Object]
    } else if is(word, "msg") {
        &[Field::Object, Field::Plain, Field::Plain, Field::Held]
    } else if is(word, "packet") {
        &[
            Field::Object,
            Field::Plain,
            Field::Plain,
            Field::Plain,
            Field::Plain,
            Field::Plain,
            Field::Process,
            Field::Handle,
        ]
    } else if is(word, "wait") {
        &[Field::Plain, Field::Process, Field::Handle, Field::Object]
    } else {
        object_form(word)
    }
}

/// What follows the first word of a line about an object that is no row.
fn object_form(word: &[u8]) -> &'static [Field]
    ensures { result.now ≡ object_form word.now }
{
    if is(word, "holders") || is(word, "message") || is(word, "child") {
        &[Field::Object]
    } else if tells_when(word) {
        &[Field::Moment, Field::Process, Field::Call]
    } else {
        &[]
    }
}

/// Whether a line about an object tells when something happened to it.
fn tells_when(word: &[u8]) -> bool
    ensures { result ≡ tells_when word.now }
{
    is(word, "made") || is(word, "ended") || is(word, "peer_closed") || is(word, "leaked")
}

/// What follows the second word of a message's line.
pub fn message_form(word: &[u8]) -> &'static [Field]
    ensures { result.now ≡ message_form word.now }
{
    if is(word, "message") {
        &[Field::Plain, Field::Held]
    } else {
        &[Field::Moment, Field::Process, Field::Call]
    }
}

/// What follows the first word of a line of `summary`.
pub fn count_form(word: &[u8]) -> &'static [Field]
    ensures { result.now ≡ count_form word.now }
{
    if is(word, "calls") {
        &[Field::Process]
    } else {
        &[Field::Object]
    }
}

/// What follows a word of a step in the life of a handle.
pub fn step_form(word: &[u8]) -> &'static [Field]
    ensures { result.now ≡ step_form word.now }
{
    if is(word, "entry") {
        &[Field::Process, Field::Handle, Field::Plain, Field::Origin]
    } else if is(word, "message") {
        &[
            Field::Object,
            Field::Plain,
            Field::Plain,
            Field::Plain,
            Field::Origin,
        ]
    } else {
        &[Field::Step]
    }
}

/// What follows the field behind a place and its rights: another place, or the call of the process in this field.
pub fn origin_form(word: &[u8]) -> &'static [Field]
    ensures { result.now ≡ origin_form word.now }
{
    if is(word, "from") {
        &[Field::Step]
    } else {
        &[Field::Call]
    }
}

/// What follows a word of the tree of handles.
pub fn place_form(word: &[u8]) -> &'static [Field]
    ensures { result.now ≡ place_form word.now }
{
    if is(word, "entry") {
        &[Field::Process, Field::Handle, Field::Place]
    } else if is(word, "message") {
        &[Field::Object, Field::Plain, Field::Plain, Field::Place]
    } else {
        &[Field::Place]
    }
}

/// What the arguments of the call of this name are.
pub fn arguments_of(name: &[u8]) -> &'static [Field]
    ensures { result.now ≡ arguments_of name.now }
{
    if is(name, "channel_write") {
        &[Field::Handle, Field::Plain, Field::Handle]
    } else if takes_two_handles(name) {
        &[Field::Handle, Field::Handle]
    } else if takes_handle(name) {
        &[Field::Handle]
    } else {
        &[]
    }
}

/// Whether the first two arguments are handles.
fn takes_two_handles(name: &[u8]) -> bool
    ensures { result ≡ takes_two_handles name.now }
{
    is(name, "object_wait_async")
        || is(name, "port_cancel")
        || is(name, "spawn")
        || is(name, "job_set_critical")
}

/// Whether the first argument alone is a handle.
fn takes_handle(name: &[u8]) -> bool
    ensures { result ≡ takes_handle name.now }
{
    is(name, "handle_close")
        || is(name, "handle_duplicate")
        || is(name, "handle_replace")
        || is(name, "object_signal")
        || is(name, "object_signal_peer")
        || is(name, "channel_read")
        || is(name, "port_queue")
        || is(name, "port_wait")
        || is(name, "job_create")
        || is(name, "task_kill")
}

/// What the values behind `ok` are in the reply to the call of this name.
pub fn values_of(name: &[u8]) -> &'static [Field]
    ensures { result.now ≡ values_of name.now }
{
    if is(name, "channel_read") {
        &[Field::Plain, Field::Handle]
    } else if is(name, "spawn") {
        &[Field::Handle, Field::Process]
    } else if gives_two_handles(name) {
        &[Field::Handle, Field::Handle]
    } else if gives_handle(name) {
        &[Field::Handle]
    } else {
        &[]
    }
}

/// Whether the values are two handles.
fn gives_two_handles(name: &[u8]) -> bool
    ensures { result ≡ gives_two_handles name.now }
{
    is(name, "eventpair_create") || is(name, "channel_create")
}

/// Whether the value is a handle.
fn gives_handle(name: &[u8]) -> bool
    ensures { result ≡ gives_handle name.now }
{
    is(name, "event_create")
        || is(name, "port_create")
        || is(name, "job_create")
        || is(name, "handle_duplicate")
        || is(name, "handle_replace")
}
