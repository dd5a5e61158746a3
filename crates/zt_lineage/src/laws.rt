//! Laws of where handles come from. Each law is the contract of a function that does nothing.

ghost use Rattle.std.specs.Prelude.{◌≡◌, ℕ, true, None, Some};
ghost use Rattle.zt_rows.specs.declared.calls.Call.{Call};
ghost use Rattle.zt_rows.specs.declared.rows.Held.{Held};
ghost use Rattle.zt_rows.specs.State.{State};
ghost use Rattle.zt_rows.specs.Reads.{has_live_process};
ghost use Rattle.zt_rows.specs.Step.{IsCall, step};
ghost use Rattle.zt_rows.specs.Consistent.{IsConsistent};
ghost use Rattle.zt_lineage.specs.declared.origins.Origin.TheVariants.{From};
ghost use Rattle.zt_lineage.specs.declared.places.Place.{Place};
ghost use Rattle.zt_lineage.specs.Places.{held_at};
ghost use Rattle.zt_lineage.specs.Lives.{if_from, successor};
ghost use Rattle.zt_lineage.specs.Origins.{origin, IsFrom};

/// After a call, what each place holds has exactly one origin: it stayed there, the call made its object, or it came
/// from one other place, which held the same object before the call. Rights never grow on the way.
pub fn each_handle_has_one_origin()
    ensures { (S : State) (p : ℕ) (c : Call) (place : Place) (held : Held) → IsConsistent S → has_live_process S p ≡ true
        → IsCall c → held_at (step S p c).0 place ≡ Some held → IsFrom S held place (origin S p c place) }
{}

/// A handle that a call takes from one place to another is followed there: where a place no longer holds what it held, and
/// another place holds what came from it, the way on that `life` follows leads to that place.
pub fn each_move_is_followed()
    ensures { (S : State) (p : ℕ) (c : Call) (at other : Place) (old held : Held) → IsConsistent S → has_live_process S p ≡ true
        → IsCall c → held_at S at ≡ Some old → held_at (step S p c).0 at ≡ None → held_at (step S p c).0 other ≡ Some held
        → origin S p c other ≡ From at → if_from S p c at (successor S p c (step S p c).1 at) ≡ Some other }
{}

/// A handle never splits: of the places that hold what came from a place that lost it, there is only one.
pub fn no_handle_splits()
    ensures { (S : State) (p : ℕ) (c : Call) (at one two : Place) (old held same : Held) → IsConsistent S → has_live_process S p ≡ true
        → IsCall c → held_at S at ≡ Some old → held_at (step S p c).0 at ≡ None → held_at (step S p c).0 one ≡ Some held
        → origin S p c one ≡ From at → held_at (step S p c).0 two ≡ Some same → origin S p c two ≡ From at → one ≡ two }
{}
