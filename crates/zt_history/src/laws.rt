//! Laws of every tree of moments. Each law is the contract of a function that does nothing.

ghost use Rattle.std.specs.Prelude.{◌≡◌, ◌≤◌, ◌<◌, ◌++◌, ◌∷◌, [], ℕ, suc, List, length, Ok};
ghost use Rattle.zt_rows.specs.declared.calls.Answer.{Answer};
ghost use Rattle.zt_rows.specs.declared.calls.Call.{Call};
ghost use Rattle.zt_rows.specs.Change.{exchange};
ghost use Rattle.zt_rows.specs.Consistent.{IsConsistent};
ghost use Rattle.zt_rows.specs.Opening.{opening};
ghost use Rattle.zt_rows.specs.Room.{HasRoom};
ghost use Rattle.zt_rows.specs.Step.{IsCall, run};
ghost use Rattle.zt_history.specs.HistoryRefusals.{call_on, call_under, followed, branch_on};
ghost use Rattle.zt_history.specs.TreeInvariant.{Falls, IsTree, record_of};
ghost use Rattle.zt_history.specs.Tree.{Made, Tree, last_moment, parent_at, path, end_of, calls_to, replies_to, state_at, head_at, head_moved, opening_tree};

/// If each parent is earlier than its moment, the path to a moment is the path to its parent, and then the moment. The
/// path to a moment ends with that moment.
#[tactic(auto, using(crate::proofs::LawsOfTrees::path_laws))]
pub fn a_path_is_its_parents_and_the_moment()
    ensures step { (made : List Made) → Falls made → (i : ℕ) → path made (suc i) ≡ path made (parent_at made (suc i)) ++ suc i ∷ [] }
    ensures end { (made : List Made) → Falls made → (m : ℕ) → end_of (path made m) ≡ m }
{}

/// Running the calls on the path to a moment, from the opening, gives the moment's state and the replies of the moments
/// on that path.
#[tactic(auto, using(crate::proofs::LawsOfTrees::run_laws))]
pub fn a_path_runs_to_its_state_and_replies()
    ensures { (t : Tree) (m : ℕ) → IsTree t → m ≤ last_moment t → run opening (calls_to t.made m) ≡ (state_at t.made m, replies_to t.made m) }
{}

/// Every moment's state is consistent, and has room for one more call.
pub fn every_moment_is_consistent()
    ensures consistent { (t : Tree) (m : ℕ) → IsTree t → m ≤ last_moment t → IsConsistent (state_at t.made m) }
    ensures room { (t : Tree) (m : ℕ) → IsTree t → m ≤ last_moment t → HasRoom (state_at t.made m) }
{}

/// Exchanging the rows of a moment's record with those of its state gives the parent's state, and the record for that
/// state. Exchanging again leads forth again.
#[tactic(auto, using(crate::proofs::LawsOfTrees::record_laws))]
pub fn a_record_leads_back_and_forth()
    ensures back { (made : List Made) (i : ℕ) → Falls made
        → exchange (state_at made (suc i)) (record_of made (suc i) (suc i))
        ≡ (state_at made (parent_at made (suc i)), record_of made (parent_at made (suc i)) (suc i)) }
    ensures forth { (made : List Made) (i : ℕ) → Falls made
        → exchange (state_at made (parent_at made (suc i))) (record_of made (parent_at made (suc i)) (suc i))
        ≡ (state_at made (suc i), record_of made (suc i) (suc i)) }
{}

/// The opening is a tree. A call, a branch or another head makes a tree of a tree.
pub fn calls_and_branches_make_trees()
    ensures opening { IsTree opening_tree }
    ensures call { (t : Tree) (b p : ℕ) (c : Call) (said : Answer) (u : Tree) → IsTree t → b < length t.branches → IsCall c
        → call_on t b p c ≡ Ok (said, u) → IsTree u }
    ensures under { (t : Tree) (m p : ℕ) (c : Call) (said : Answer) (u : Tree) → IsTree t → IsCall c
        → call_under t m p c ≡ Ok (said, u) → IsTree u }
    ensures branch { (t : Tree) (name : List ℕ) (m number : ℕ) (u : Tree) → IsTree t → branch_on t name m ≡ Ok (number, u) → IsTree u }
    ensures head { (t : Tree) (b m : ℕ) → IsTree t → m ≤ last_moment t → IsTree (head_moved t b m) }
{}

/// A call on a branch is a call at the head of that branch, after which the head moves to the new moment.
pub fn a_call_is_one_at_the_head_that_moves_then()
    ensures { (t : Tree) (b p : ℕ) (c : Call) → IsTree t → call_on t b p c ≡ followed b (call_under t (head_at t.branches b) p c) }
{}
