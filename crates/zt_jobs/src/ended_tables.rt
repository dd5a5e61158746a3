//! Takes away the handle tables of processes that end.

ghost use Rattle.std.specs.Prelude.{◌≡◌, ◌++◌, IfOk, OnOk, option_to_list};
ghost use Rattle.zt_rows.specs.Reads.{entry};
ghost use Rattle.zt_rows.specs.declared.keys.RowKey.TheVariants as key_variant;
ghost use Rattle.zt_rows.specs.State.{change};
ghost use Rattle.zt_rows.specs.Tests.{among};
ghost use Rattle.zt_store.specs.ProofsOnly.StepView.{IsAhead};
ghost use Rattle.zt_store.specs.KoidSets.{only};
ghost use Rattle.zt_jobs.specs.ProofsOnly.TaskTree.{IsRising};
ghost use Rattle.zt_jobs.specs.EndedTasks.{handles_of};
ghost use Rattle.zt_jobs.specs.ProofsOnly.EndedTasks.{left_behind, without_tables};
ghost use Rattle.zt_jobs.specs.ProofsOnly.NextRow.{IsNextRow};

use std::alloc::{AllocError, Global};
use zt_rows::{HandleValue, Held, Koid, RowKey};
use zt_store::Step;

/// Takes away all entries of the members. Returns what they held, by rising process and handle value.
pub(crate) fn take_tables(
    alloc: Global,
    step: &mut Step,
    members: &[Koid],
) -> Result<Vec<Held>, AllocError>
    requires { IsRising members.now }
    ensures ahead { IsAhead step.old step.new }
    ensures handles { IfOk result (λ taken. taken.items ≡ handles_of step.old.current (among members.now)) }
    ensures ok { OnOk result (step.new.current ≡ change (without_tables (among members.now)) step.old.current) }
{
    let mut taken = Vec::new(alloc);
    for koid in members {
        take_table(step, *koid, &mut taken)?;
    }
    Ok(taken)
}

/// Takes away all entries of the process, and appends what they held to the list, by rising handle value. Looks at the
/// table of this process alone.
fn take_table(step: &mut Step, process: Koid, taken: &mut Vec<Held>) -> Result<(), AllocError>
    ensures ahead { IsAhead step.old step.new }
    ensures handles { OnOk result (taken.new.items ≡ taken.old.items ++ handles_of step.old.current (only process)) }
    ensures ok { OnOk result (step.new.current ≡ change (without_tables (only process)) step.old.current) }
{
    let mut value = 0;
    'entries: loop {
        take_entry(step, process, HandleValue(value), taken)?;
        match next_value(step, process, value) {
            Some(next) => value = next,
            None => return Ok(()),
        }
    }
}

/// Takes away the entry of the process, if there is one, and appends what it held to the list.
fn take_entry(
    step: &mut Step,
    process: Koid,
    value: HandleValue,
    taken: &mut Vec<Held>,
) -> Result<(), AllocError>
    ensures ahead { IsAhead step.old step.new }
    ensures handles { OnOk result (taken.new.items ≡ taken.old.items ++ option_to_list (entry step.old.current process value)) }
    ensures ok { OnOk result (step.new.current
        ≡ left_behind (without_tables (only process)) step.old.current (key_variant.Entry process value)) }
{
    let Some(held) = step.store().entry(process, value) else {
        return Ok(());
    };
    taken.push(held)?;
    step.put(RowKey::Entry(process, value), None)?;
    Ok(())
}

/// The least handle value above this number under which the process has an entry.
fn next_value(step: &Step, process: Koid, low: u32) -> Option<u32>
    ensures { IsNextRow step.now.current (λ h. key_variant.Entry process h) low result }
{
    let value = step.store().handle_of(process, Some(HandleValue(low)))?;
    Some(value.0)
}
