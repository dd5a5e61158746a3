//! Reads the koids that a tracer tells of the objects of handles.

use crate::json_values::JsonValue;
use crate::line_members::LineMembers;
use crate::numbers::{narrow, number_in, number_of};
use crate::rare_members::RareMember;
use std::alloc::{AllocError, Global};
use zt_rows::HandleValue;

/// The koid that a line tells of a handle's object, or of the peer of that object.
#[derive(Clone, Copy, Debug, PartialEq, Eq)]
pub struct HandleKoid {
    pub handle: HandleValue,
    pub koid: u64,
    pub is_peer: bool,
}

/// The koids that a line tells in `koids` and `related_koids`. A member of another form is ignored.
#[inline(always)]
pub(crate) fn koids_of(
    alloc: Global,
    line: &LineMembers<'_, '_>,
) -> Result<Vec<HandleKoid>, AllocError> {
    let mut koids = Vec::new(alloc);
    if let Some(object) = line.rare(RareMember::Koids) {
        push_koids(&mut koids, &object, false)?;
    }
    if let Some(object) = line.rare(RareMember::RelatedKoids) {
        push_koids(&mut koids, &object, true)?;
    }
    Ok(koids)
}

/// Appends the koids of an object that has a member for each handle.
fn push_koids(
    koids: &mut Vec<HandleKoid>,
    object: &JsonValue<'_, '_>,
    is_peer: bool,
) -> Result<(), AllocError> {
    let Some(mut members) = object.members() else {
        return Ok(());
    };
    while let Some((name, value)) = members.next() {
        if let Some(told) = koid_in(name, &value, is_peer) {
            koids.push(told)?;
        }
    }
    Ok(())
}

/// The koid that a member tells of a handle. None if the handle or the koid is 0, or not a number.
fn koid_in(name: &str, value: &JsonValue<'_, '_>, is_peer: bool) -> Option<HandleKoid> {
    let handle = HandleValue(narrow(number_of(name)?)?);
    let koid = number_in(value)?;
    if handle.0 == 0 || koid == 0 {
        return None;
    }
    Some(HandleKoid {
        handle,
        koid,
        is_peer,
    })
}
