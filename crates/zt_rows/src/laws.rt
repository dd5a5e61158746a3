//! Laws of all states, of changes of a state, and of what follows a call. Each law is the contract of a function that
//! does nothing.

ghost use Rattle.std.specs.Prelude.{◌≡◌, ◌↔◌, ◌≤◌, ◌<◌, ◌+◌, true, if◌then◌else◌, List, map, Option, Some, option_and_then, ◌||◌, ℕ, Bool, false};
ghost use Rattle.std.specs.List.{IsDistinct};
ghost use Rattle.zt_rows.specs.declared.keys.RowKey.{RowKey};
ghost use Rattle.zt_rows.specs.declared.rows.Row.{Row};
ghost use Rattle.zt_rows.specs.Keys.{rowkey_eq};
ghost use Rattle.zt_rows.specs.Same.{row_eq};
ghost use Rattle.zt_rows.specs.State.{State, row, put, change};
ghost use Rattle.zt_rows.specs.Change.{before, exchange};
ghost use Rattle.zt_rows.specs.Path.{records_of, forth_of, end_of, exchange_back, exchange_forth};
ghost use Rattle.zt_rows.specs.declared.calls.Call.{Call};
ghost use Rattle.zt_rows.specs.Collect.{goes, without, collect};
ghost use Rattle.zt_rows.specs.Justified.{Justified};
ghost use Rattle.zt_rows.specs.Settle.{settle};
ghost use Rattle.zt_rows.specs.Consistent.{IsSound, IsConsistent};
ghost use Rattle.zt_rows.specs.declared.rows.ObjectRow.{ObjectRow};
ghost use Rattle.zt_rows.specs.End.{IsClosed, ends_with, is_live_task};
ghost use Rattle.zt_rows.specs.Reads.{object, has_live_process};
ghost use Rattle.zt_rows.specs.Room.{HasRoom, HasSpent, most_calls};
ghost use Rattle.zt_rows.specs.Opening.{opening};
ghost use Rattle.zt_rows.specs.Step.{IsCall, step};

/// After a row is put, it stands under its key, and every other row is as it was.
#[tactic(auto, using(crate::proofs::StateLaws::put_laws))]
pub fn put_changes_one_row()
    ensures { (s : State) (k : RowKey) (r : Option Row) (q : RowKey)
        → row (put s k r) q ≡ (if rowkey_eq q k then r else row s q) }
{}

/// A change works row by row: the row under a key afterwards is what the change makes of the row that stood there.
#[tactic(auto, using(crate::proofs::StateLaws::change_laws))]
pub fn change_works_row_by_row()
    ensures { (f : RowKey → Row → Option Row) (s : State) (q : RowKey)
        → row (change f s) q ≡ option_and_then (f q) (row s q) }
{}

/// Two states with the same rows are equal.
#[tactic(auto, using(crate::proofs::StateLaws::same_state))]
pub fn same_rows_are_one_state()
    ensures { (s t : State) → ((k : RowKey) → row s k ≡ row t k) → s ≡ t }
{}

/// The equality test of rows is exact: it holds for equal rows and for no others.
#[tactic(auto, using(crate::proofs::ChangeLaws::exact_laws))]
pub fn row_test_is_exact()
    ensures { (a b : Row) → (row_eq a b ≡ true) ↔ (a ≡ b) }
{}

/// Exchanging a record with distinct keys twice changes neither the state nor the record.
#[tactic(auto, using(crate::proofs::ChangeLaws::twice_laws))]
pub fn exchanging_twice_changes_nothing()
    ensures { (s : State) (rows : List (RowKey × Option Row))
        → IsDistinct rowkey_eq (map (λ e. e.0) rows)
        → exchange (exchange s rows).0 (exchange s rows).1 ≡ (s, rows) }
{}

/// A record keeps the rows from before a change. Exchanging it with the state after the change restores the state
/// before. The record then brings the state after back.
#[tactic(auto, using(crate::proofs::ChangeLaws::before_laws))]
pub fn exchanging_back_restores()
    ensures { (s after : State) → exchange after (before s after) ≡ (s, before after s) }
{}

/// Exchanging the records of a path of states, from the last to the first, restores the first state.
#[tactic(auto, using(crate::proofs::ChangeLaws::path_laws))]
pub fn undoing_a_path_restores()
    ensures { (s : State) (path : List State)
        → (exchange_back (end_of s path) (records_of s path)).0 ≡ s }
{}

/// Exchanging the records of a path from the last to the first, and then from the first to the last, changes nothing.
/// The records and the last state are as they were.
#[tactic(auto, using(crate::proofs::ChangeLaws::turned_laws))]
pub fn a_path_is_made_again()
    ensures back { (s : State) (path : List State)
        → exchange_back (end_of s path) (records_of s path) ≡ (s, forth_of s path) }
    ensures forth { (s : State) (path : List State)
        → exchange_forth s (forth_of s path) ≡ (end_of s path, records_of s path) }
{}

/// A consistent state is at rest: nothing is left to remove, to renew or to fire.
#[tactic(auto, using(crate::proofs::SettleLaws::rest_laws))]
pub fn consistent_is_at_rest()
    ensures collected { (S : State) → IsConsistent S → collect S ≡ S }
    ensures settled { (S : State) → IsConsistent S → settle S S ≡ S }
{}

/// After collecting, every object that is left has a support.
#[tactic(auto, using(crate::proofs::CollectLaws::collect_laws))]
pub fn collected_is_supported()
    ensures { (S : State) (x : ℕ) → goes (collect S) x ≡ false }
{}

/// A sound state becomes consistent when it is collected and settled, whatever state it came from. So a call only has
/// to leave a sound state.
pub fn sound_becomes_consistent()
    ensures { (S T : State) → IsSound T → IsConsistent (settle S (collect T)) }
{}

/// A call of a live process leaves a consistent state consistent.
pub fn calls_keep_consistency()
    ensures { (S : State) (p : ℕ) (c : Call) → IsConsistent S → has_live_process S p ≡ true → IsCall c
        → IsConsistent (step S p c).0 }
{}

/// Every history begins with a consistent state.
#[tactic(auto, using(crate::proofs::OpeningLaws::opening_laws))]
pub fn opening_is_consistent()
    ensures { IsConsistent opening }
{}

/// The opening has given out few numbers, and each call gives out few more. If no more calls gave numbers out than a
/// history can have, there is room for one more call.
pub fn few_calls_leave_room()
    ensures opening { HasSpent 0 opening }
    ensures call { (S : State) (p : ℕ) (c : Call) (calls : ℕ) → calls < most_calls → IsConsistent S
        → has_live_process S p ≡ true → IsCall c → HasSpent calls S → HasSpent (calls + 1) (step S p c).0 }
    ensures room { (S : State) (calls : ℕ) → calls ≤ most_calls → HasSpent calls S → HasRoom S }
{}

/// What ends with a live process or job of a sound state is the least closed set that has it.
pub fn what_ends_is_the_least_closed_set()
    ensures has { (S : State) (x : ℕ) (o : ObjectRow) → IsSound S → object S x ≡ Some o → is_live_task (Some o) ≡ true
        → ends_with S x x ≡ true }
    ensures closed { (S : State) (x : ℕ) (o : ObjectRow) → IsSound S → object S x ≡ Some o → is_live_task (Some o) ≡ true
        → IsClosed S (ends_with S x) }
    ensures least { (S : State) (x : ℕ) (o : ObjectRow) → IsSound S → object S x ≡ Some o → is_live_task (Some o) ≡ true
        → (ending : ℕ → Bool) → IsClosed S ending → ending x ≡ true
        → (y : ℕ) → ends_with S x y ≡ true → ending y ≡ true }
{}

/// Removing one set of objects and then another is removing both at once.
pub fn removing_twice_removes_both()
    ensures { (S : State) (b c : ℕ → Bool)
        → without (without S b) c ≡ without S (λ x. b x || c x) }
{}

/// The order of removal does not matter. A set may be built one object at a time, each without support once those
/// before it are gone. If nothing is left to go once the whole set is removed, removing it is the same as collecting.
pub fn order_of_removal_is_free()
    ensures { (S : State) (b : ℕ → Bool) → Justified S b
        → ((x : ℕ) → goes (without S b) x ≡ false) → collect S ≡ without S b }
{}
