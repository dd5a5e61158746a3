//! Laws of the tree of jobs. Each law is the contract of a function that does nothing.

ghost use Rattle.std.specs.Prelude.{◌≡◌, ℕ, true, Some};
ghost use Rattle.zt_rows.specs.declared.rows.ObjectRow.{ObjectRow};
ghost use Rattle.zt_rows.specs.State.{State};
ghost use Rattle.zt_rows.specs.Reads.{object};
ghost use Rattle.zt_rows.specs.End.{ends_with, is_live_task};
ghost use Rattle.zt_rows.specs.Consistent.{IsSound};
ghost use Rattle.zt_jobs.specs.EndingWalk.{IsWalkable};

/// In a sound state, a walk from parent to child and from process to critical job finds what ends with a task, and
/// nothing else. The walk begins at this task, which is a live process or job.
pub fn sound_states_are_walkable()
    ensures { (S : State) (x : ℕ) (o : ObjectRow) → IsSound S → object S x ≡ Some o → is_live_task (Some o) ≡ true
        → IsWalkable S x (ends_with S x) }
{}
