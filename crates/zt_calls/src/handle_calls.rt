//! The system calls on handles: close, duplicate, replace.

ghost use Rattle.std.specs.Prelude.{◌≡◌, true};
ghost use Rattle.zt_rows.specs.Reads.{has_live_process};
ghost use Rattle.zt_rows.specs.Room.{HasRoom};
ghost use Rattle.zt_rows.specs.ObjectCalls.{handle_close, handle_duplicate, handle_replace};
ghost use Rattle.zt_store.specs.Places.{Keeps};
ghost use Rattle.zt_calls.specs.ProofsOnly.CallOutcomes.{Does};

use crate::failure::Failure;
use crate::handle_arguments::{ExpectedKind, handle_to};
use crate::taken_handles::take_out;
use zt_bits::{Rights, Status, asked};
use zt_rows::{HandleValue, Koid, Reply};
use zt_store::Step;
use zt_tables::duplicate;

/// Closes a handle. Closing 0 is ok and changes nothing. Answers `BadHandle` if the caller does not have the handle.
pub fn handle_close(step: &mut Step, process: Koid, handle: HandleValue) -> Result<Reply, Failure>
    ensures does { Does (handle_close step.old.current process handle) step.old step.new result }
    ensures kept { Keeps step.old.places step.new.places }
{
    if handle != HandleValue(0) {
        step.store()
            .entry(process, handle)
            .ok_or(Status::BadHandle)?;
        take_out(step, process, handle)?;
    }
    Ok(Reply::Status(Status::Ok))
}

/// Gives the caller a second handle, with the rights asked for. Answers with the status of `handle_to`, or with
/// `InvalidArgs` if the mask asks for a right that the first handle lacks.
pub fn handle_duplicate(
    step: &mut Step,
    process: Koid,
    handle: HandleValue,
    rights: u32,
) -> Result<Reply, Failure>
    requires room { HasRoom step.old.current }
    requires running { has_live_process step.old.current process ≡ true }
    ensures does { Does (handle_duplicate step.old.current process handle rights) step.old step.new result }
    ensures kept { Keeps step.old.places step.new.places }
{
    let (held, _) = handle_to(step, process, handle, ExpectedKind::Any, Rights::DUPLICATE)?;
    let rights = asked(rights, held.rights).ok_or(Status::InvalidArgs)?;
    let value = duplicate(step, process, held, rights)?;
    Ok(Reply::Handle(value))
}

/// Replaces a handle by one with the rights asked for. Answers `BadHandle` if the caller does not have the handle.
/// Answers `InvalidArgs` if the mask asks for a right that the handle lacks. The handle is closed in that case too.
pub fn handle_replace(
    step: &mut Step,
    process: Koid,
    handle: HandleValue,
    rights: u32,
) -> Result<Reply, Failure>
    requires room { HasRoom step.old.current }
    requires running { has_live_process step.old.current process ≡ true }
    ensures does { Does (handle_replace step.old.current process handle rights) step.old step.new result }
    ensures kept { Keeps step.old.places step.new.places }
{
    let held = step
        .store()
        .entry(process, handle)
        .ok_or(Status::BadHandle)?;
    let granted = asked(rights, held.rights);
    take_out(step, process, handle)?;
    let rights = granted.ok_or(Status::InvalidArgs)?;
    let value = duplicate(step, process, held, rights)?;
    Ok(Reply::Handle(value))
}
