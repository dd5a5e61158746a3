//! Laws of removing one object at a time, and of settling. Each law is the contract of a function that does nothing.

ghost use Rattle.std.specs.Prelude.{◌≡◌, ◌≤◌, ◌<◌, ◌+◌, ℕ, Bool, true, false, List, Option};
ghost use Rattle.zt_rows.specs.declared.rows.Held.{Held};
ghost use Rattle.zt_rows.specs.declared.rows.Wait.{Wait};
ghost use Rattle.zt_rows.specs.State.{State};
ghost use Rattle.zt_rows.specs.Collect.{collect, goes, without};
ghost use Rattle.zt_rows.specs.Consistent.{IsSound};
ghost use Rattle.zt_rows.specs.Reads.{wait};
ghost use Rattle.zt_rows.specs.Settle.{settle};
ghost use Rattle.zt_rows.specs.Support.{is_supported};
ghost use Rattle.zt_rows.specs.Tests.{exists, next_at};
ghost use Rattle.zt_store.specs.StepView.{Stepping};
ghost use Rattle.zt_store.specs.KoidSets.{only};
ghost use Rattle.zt_cascade.specs.ToldObjects.{IsCovered};
ghost use Rattle.zt_cascade.specs.OneByOne.{IsReleased, IsOnTheWay};
ghost use Rattle.zt_cascade.specs.JoinedLinks.{IsJoined};

/// A state is on the way from itself. One more object that goes leads further on the way. If nothing goes any more, the
/// way has ended at what `collect` gives.
pub fn one_at_a_time_is_collecting()
    ensures begun { (S : State) → IsOnTheWay S S }
    ensures more { (S T : State) (x : ℕ) → IsOnTheWay S T → goes T x ≡ true → IsOnTheWay S (without T (only x)) }
    ensures ended { (S T : State) → IsOnTheWay S T → ((x : ℕ) → goes T x ≡ false) → T ≡ collect S }
{}

/// If an object goes only since another one is gone, a handle in that one's queue named it, or its link did.
pub fn what_newly_goes_was_named()
    ensures { (S : State) (x y : ℕ) → goes (without S (only x)) y ≡ true → goes S y ≡ false → IsReleased S x y }
{}

/// Removing objects leaves the links of endpoints joined both ways.
pub fn removal_keeps_links_joined()
    ensures sound { (S : State) → IsSound S → IsJoined S }
    ensures kept { (S : State) (going : ℕ → Bool) → IsJoined S → IsJoined (without S going) }
{}

/// If every object was supported when a step began, the step tells of every object that goes. This holds with any list
/// of released handles.
pub fn what_a_step_loses_is_told()
    ensures { (s : Stepping) (released : List Held)
        → ((x : ℕ) → exists s.beginning x ≡ true → is_supported s.beginning x ≡ true)
        → IsCovered s released }
{}

/// Settling raises the next number of an object by at most `most`, if all numbers of waits are below `most`. So a state
/// with few waits has room to fire them.
pub fn settling_raises_few_numbers()
    ensures { (B S : State) (most x : ℕ) → ((n : ℕ) (w : Wait) → wait S n ≡ Option.Some w → n < most) → next_at (settle B S) x ≤ next_at S x + most }
{}
