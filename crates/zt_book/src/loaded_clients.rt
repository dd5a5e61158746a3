//! Loads a whole saved tree: its moments, its branches, and a client at each cursor.

ghost use Rattle.std.specs.Prelude.{◌≡◌, ◌+◌, ◌≤◌, ◌<◌, ◌^◌, false, [], All, Ok, Err, IfOk, IfErr, length, slice_index_or};
ghost use Rattle.zt_book.specs.Session.{first_client, most_clients};
ghost use Rattle.zt_book.specs.SavedSessions.{clients_at, in_turn, loaded_saved, place_on, seated, with_cursor};
ghost use Rattle.zt_book.specs.Log.{IsUnloadedBy};
ghost use Rattle.zt_book.specs.ProofsOnly.SessionState.{IsCursor};

use crate::client::{Client, Cursor};
use crate::load_progress::LoadProgress;
use crate::loaded_history::{MAIN, fault};
use crate::loaded_tree::tree_of;
use crate::session_state::SessionState;
use std::alloc::{AllocError, Global};
use zt_history::History;
use zt_rows::{Cursor as SavedCursor, Refusal, SavedBranch, SavedCall};

/// Loads moments and branches into a tree, and puts this many clients at the cursors. A moment's memory is freed as soon as the
/// moment is made. Errors are those of `Book::load_saved`, except `TooManyClients`.
pub(crate) fn session_of<P: LoadProgress>(
    alloc: Global,
    clients: u8,
    moments: Vec<SavedCall>,
    branches: &[SavedBranch],
    cursors: &[SavedCursor],
    told: &P,
) -> Result<SessionState, (u64, Refusal)>
    requires { clients ≤ most_clients }
    ensures ok { IfOk result (λ all_clients. loaded_saved clients (record { moments = moments.items; branches = branches.now; cursors = cursors.now }) ≡ Ok all_clients.session) }
    ensures refused { IfErr result (IsUnloadedBy false (loaded_saved clients (record { moments = moments.items; branches = branches.now; cursors = cursors.now }))) }
{
    let number = moments.len() as u64 + branches.len() as u64;
    let history = tree_of(alloc, moments, branches, told)?;
    seat(alloc, clients, number, history, cursors)
}

/// Puts this many clients over a history, at these cursors. `number` is the item number of the first cursor; an error has the
/// number of its cursor.
fn seat(
    alloc: Global,
    clients: u8,
    number: u64,
    history: History,
    cursors: &[SavedCursor],
) -> Result<SessionState, (u64, Refusal)>
    requires few { clients ≤ most_clients }
    requires counted { number + length cursors.now < 2 ^ 64 }
    ensures ok { IfOk result (λ all_clients. seated clients number history.tree cursors.now ≡ Ok all_clients.session) }
    ensures refused { IfErr result (IsUnloadedBy false (seated clients number history.tree cursors.now)) }
{
    let _position = history.position();
    let found = cursors_in(alloc, number, &history, cursors)?;
    match clients_at(alloc, clients, found.as_slice()) {
        Ok(standing) => Ok(SessionState::over(history, standing)),
        Err(_) => Err((0, Refusal::OutOfMemory)),
    }
}

/// Looks up these cursors in a history, in order. `number` is the item number of the first cursor; an error has the number of its
/// cursor.
fn cursors_in(
    alloc: Global,
    number: u64,
    history: &History,
    cursors: &[SavedCursor],
) -> Result<Vec<Cursor>, (u64, Refusal)>
    requires { number + length cursors.now < 2 ^ 64 }
    ensures ok { IfOk result (λ found. in_turn (with_cursor history.now.tree) number [] cursors.now ≡ Ok found.items) }
    ensures stand { IfOk result (λ found. All (IsCursor history.now.tree) found.items) }
    ensures refused { IfErr result (IsUnloadedBy false (in_turn (with_cursor history.now.tree) number [] cursors.now)) }
{
    let mut found = Vec::new(alloc);
    for place in 0..cursors.len() {
        match place_in(history, &cursors[place]) {
            Ok(cursor) => match found.push(cursor) {
                Ok(()) => {}
                Err(_) => return Err((0, Refusal::OutOfMemory)),
            },
            Err(reason) => return Err(fault(number + place as u64, reason)),
        }
    }
    Ok(found)
}

/// Finds where a cursor stands in a history. Fails with `NoBranch` or `NoMoment` if the history has no such place.
fn place_in(history: &History, saved: &SavedCursor) -> Result<Cursor, Refusal>
    ensures ok { IfOk result (λ cursor. place_on history.now.tree saved.now ≡ Ok cursor) }
    ensures stands { IfOk result (IsCursor history.now.tree) }
    ensures refused { IfErr result (λ reason. place_on history.now.tree saved.now ≡ Err reason) }
{
    match saved {
        SavedCursor::Follows(name) => match history.find(name.as_slice()) {
            Some(branch) => Ok(Cursor::Follows(branch)),
            None => Err(Refusal::NoBranch),
        },
        SavedCursor::At(moment) => {
            if *moment > history.last() {
                return Err(Refusal::NoMoment);
            }
            Ok(Cursor::At(*moment))
        }
    }
}

/// Makes this many clients: one at each cursor. If there are fewer cursors than clients, the other clients follow `main`.
fn clients_at(alloc: Global, clients: u8, cursors: &[Cursor]) -> Result<Vec<Client>, AllocError>
    ensures { IfOk result (λ standing. standing.items ≡ clients_at clients cursors.now) }
{
    let mut standing = Vec::new(alloc);
    for place in 0..clients as usize {
        standing.push(Client {
            cursor: cursor_at(cursors, place),
            pinned: None,
            rows: 0,
        })?;
    }
    Ok(standing)
}

/// Returns the cursor at this place, counted from 0. Beyond the last cursor it returns one that follows `main`.
fn cursor_at(cursors: &[Cursor], place: usize) -> Cursor
    ensures { result ≡ slice_index_or cursors.now place first_client.cursor }
{
    match cursors.get(place) {
        Some(cursor) => *cursor,
        None => Cursor::Follows(MAIN),
    }
}
