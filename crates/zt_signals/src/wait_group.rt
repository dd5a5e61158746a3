//! Takes away a group of waits: those on one handle, or those of them for one port under one key.

ghost use Rattle.std.specs.Prelude.{◌≡◌, IfOk, OnOk, OnErr};
ghost use Rattle.std.specs.Option.{option_and_then};
ghost use Rattle.zt_rows.specs.declared.keys.RowKey.TheVariants as key_variant;
ghost use Rattle.zt_rows.specs.State.{row, put, change};
ghost use Rattle.zt_rows.specs.Tests.{any_row};
ghost use Rattle.zt_store.specs.Places.{Keeps};
ghost use Rattle.zt_store.specs.StepView.{Advanced, AsBegun};
ghost use Rattle.zt_signals.specs.ProofsOnly.WaitGroups.{IsNextPicked, is_picked, picks};
ghost use Rattle.zt_signals.specs.DroppedWaits.{is_wait_where, without_waits};

use std::alloc::AllocError;
use zt_rows::{HandleValue, Koid, RowKey, Wait};
use zt_store::Step;

/// A group of waits that go together.
#[derive(Clone, Copy, Debug)]
pub(crate) enum WaitGroup {
    /// The waits that the process made on the handle.
    On(Koid, HandleValue),
    /// The waits for the port that the process made on the handle under the key.
    Under(Koid, Koid, HandleValue, u64),
}

impl WaitGroup {
    /// Whether the wait is in the group.
    fn takes(&self, wait: &Wait) -> bool
        ensures { result ≡ picks self.now wait.now }
    {
        match *self {
            WaitGroup::On(process, handle) => wait.process == process && wait.handle == handle,
            WaitGroup::Under(port, process, handle, key) => {
                wait.port == port
                    && wait.process == process
                    && wait.handle == handle
                    && wait.key == key
            }
        }
    }
}

/// Takes away the waits of the group, and returns whether there was any. If an allocation fails, all puts of the step
/// are taken back.
#[inline(always)]
pub(crate) fn drop_picked(step: &mut Step, picked: WaitGroup) -> Result<bool, AllocError>
    ensures ok { OnOk result (Advanced step.old step.new (change (without_waits (picks picked)) step.old.current)) }
    ensures any { IfOk result (λ any. any ≡ any_row (is_wait_where (picks picked)) step.old.current) }
    ensures err { OnErr result (AsBegun step.old step.new) }
    ensures kept { Keeps step.old.places step.new.places }
{
    let mut any = false;
    let mut low = None;
    while let Some(number) = next_picked(step, &picked, low) {
        let told = drop_if(step, number, &picked)?;
        any |= told;
        low = Some(number);
    }
    Ok(any)
}

/// The number of the next wait above `low` that may be in the group, or of the first one if `low` is `None`. Never
/// allocates. If there never was a wait, it looks for none.
#[inline(always)]
fn next_picked(step: &Step, picked: &WaitGroup, low: Option<u64>) -> Option<u64>
    ensures { IsNextPicked (picks picked.now) step.now.current low result }
{
    if step.store().ever_had_waits() {
        find_picked(step, picked, low)
    } else {
        None
    }
}

/// The number of the next wait above `low` that may be in the group, or of the first one if `low` is `None`. Called
/// only if there may be a wait. Never allocates.
#[inline(never)]
fn find_picked(step: &Step, picked: &WaitGroup, low: Option<u64>) -> Option<u64>
    ensures { IsNextPicked (picks picked.now) step.now.current low result }
{
    let store = step.store();
    match *picked {
        WaitGroup::On(process, handle) => store.wait_on(process, handle, low),
        WaitGroup::Under(_, process, handle, _) => store.wait_on(process, handle, low),
    }
}

/// Takes away the wait of this number if it is in the group, and returns whether it was. If an allocation fails, all
/// puts of the step are taken back.
fn drop_if(step: &mut Step, number: u64, picked: &WaitGroup) -> Result<bool, AllocError>
    ensures ok { let S = step.old.current in OnOk result (Advanced step.old step.new
        (put S (key_variant.Wait number) (option_and_then (without_waits (picks picked.now) (key_variant.Wait number)) (row S (key_variant.Wait number))))) }
    ensures told { IfOk result (λ told. told ≡ is_picked (picks picked.now) step.old.current number) }
    ensures err { OnErr result (AsBegun step.old step.new) }
    ensures kept { Keeps step.old.places step.new.places }
{
    if is_picked(step, number, picked) {
        step.put(RowKey::Wait(number), None)?;
        Ok(true)
    } else {
        Ok(false)
    }
}

/// Whether there is a wait of this number and it is in the group.
fn is_picked(step: &Step, number: u64, picked: &WaitGroup) -> bool
    ensures { result ≡ is_picked (picks picked.now) step.now.current number }
{
    match step.store().wait(number) {
        Some(wait) => picked.takes(&wait),
        None => false,
    }
}
