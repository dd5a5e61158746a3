//! The name of what an element of a field tells.

ghost use Rattle.std.specs.Prelude.{◌≡◌};
ghost use Rattle.std.specs.Option.{option_copied};
ghost use Rattle.zt_notes.specs.Annotations.{name_of, koid_name_of, handle_name_of};

use crate::cuts::{cut, handle, koid};
use crate::shapes::Field;
use zt_rows::Koid;
use zt_text::Notes;

/// The name of what an element of a field tells, if it has one. Handle values are those of the process.
pub fn name_of<'a>(
    notes: &'a Notes,
    process: Koid,
    field: Field,
    element: &[u8],
) -> Option<&'a [u8]>
    ensures { option_copied result ≡ name_of notes.now process field element.now }
{
    match field {
        Field::Object | Field::Process | Field::Origin => koid_name_of(notes, element),
        Field::Handle => handle_name_of(notes, process, element),
        Field::Held => koid_name_of(notes, cut(element, b':').0),
        Field::Critical => koid_name_of(notes, cut(element, b':').1?),
        _ => None,
    }
}

/// The name of the object whose koid this is.
fn koid_name_of<'a>(notes: &'a Notes, element: &[u8]) -> Option<&'a [u8]>
    ensures { option_copied result ≡ koid_name_of notes.now element.now }
{
    notes.koid_name(koid(element)?)
}

/// The name of a process's handle whose value this is.
fn handle_name_of<'a>(notes: &'a Notes, process: Koid, element: &[u8]) -> Option<&'a [u8]>
    ensures { option_copied result ≡ handle_name_of notes.now process element.now }
{
    notes.handle_name(process, handle(element)?)
}
