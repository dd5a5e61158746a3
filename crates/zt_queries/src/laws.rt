//! Laws of leaks and of the moments at which something happens to an object. Each law is the contract of a function
//! that does nothing.

ghost use Rattle.std.specs.Prelude.{◌≡◌, ◌≤◌, ℕ, Bool, true, false, List, [], ◌∷◌, length, map, Some, None, Ok, ◌==◌};
ghost use Rattle.std.specs.List.{AllByRecursion};
ghost use Rattle.zt_rows.specs.declared.calls.Call.{Call};
ghost use Rattle.zt_rows.specs.declared.calls.Happening.{Happening};
ghost use Rattle.zt_rows.specs.declared.rows.ObjectRow.{ObjectRow};
ghost use Rattle.zt_rows.specs.State.{State};
ghost use Rattle.zt_rows.specs.Reads.{object, on_object, has_live_process};
ghost use Rattle.zt_rows.specs.Tests.{among, exists, is_endpoint};
ghost use Rattle.zt_rows.specs.Step.{IsCall, step};
ghost use Rattle.zt_rows.specs.Consistent.{IsConsistent};
ghost use Rattle.zt_history.specs.TreeInvariant.{AreMoments, IsTree};
ghost use Rattle.zt_history.specs.Tree.{Made, Tree, path};
ghost use Rattle.zt_queries.specs.HappeningTimes.{at_moment, happens, when_on, HappenOnce};
ghost use Rattle.zt_queries.specs.LaterMoments.{LeaksStay};
ghost use Rattle.zt_queries.specs.Reachability.{reached, HoldsAllNamed};
ghost use Rattle.zt_queries.specs.Leaks.{is_leaked, leaks};
ghost use Rattle.zt_queries.specs.Happenings.{lacks_peer, made, ended, peer_closed, leaked, IsCallPath, moments, last_moment};

/// The reached objects are the least closed set: a closed set that lies inside every closed set.
#[tactic(auto, using(crate::proofs::ReachLaws::reach_laws))]
pub fn reached_is_least()
    ensures closed { (S : State) → HoldsAllNamed S (among (reached S)) }
    ensures least { (S : State) (set : ℕ → Bool) → HoldsAllNamed S set → (x : ℕ)
        → among (reached S) x ≡ true → set x ≡ true }
{}

/// The list of leaks has the leaked objects and no others.
#[tactic(auto, using(crate::proofs::LeakLaws::list_laws))]
pub fn leaks_are_listed()
    ensures { (S : State) (x : ℕ) → among (map (λ e. e.0) (leaks S)) x ≡ is_leaked S x }
{}

/// In a consistent state, the signal that the peer is closed stands on exactly those endpoints that have no peer.
pub fn the_signal_tells_of_the_peer()
    ensures { (S : State) (x : ℕ) (o : ObjectRow) → IsConsistent S → object S x ≡ Some o
        → is_endpoint o.kind ≡ true → lacks_peer S x ≡ (o.link == 0) }
{}

/// A leaked object is leaked or gone after any call of a live process, and a leaked endpoint is never gone. On the
/// paths that lead on, no process reaches the object again.
pub fn what_leaked_stays_leaked()
    ensures leaked_or_gone { (S : State) (p : ℕ) (c : Call) (x : ℕ) → IsConsistent S → has_live_process S p ≡ true → IsCall c
        → is_leaked S x ≡ true → exists (step S p c).0 x ≡ true → is_leaked (step S p c).0 x ≡ true }
    ensures endpoint { (S : State) (p : ℕ) (c : Call) (x : ℕ) → IsConsistent S → has_live_process S p ≡ true → IsCall c
        → is_leaked S x ≡ true → on_object (λ o. is_endpoint o.kind) (object S x) ≡ true
        → is_leaked (step S p c).0 x ≡ true }
    ensures out_of_reach { (S : State) (path : List (ℕ × State)) (x : ℕ) → IsConsistent S → IsCallPath S path
        → is_leaked S x ≡ true → AllByRecursion (λ m. among (reached m.1) x ≡ false) path }
{}

/// In every tree, an object that is leaked at a moment is out of reach at every moment to which that one leads. It is
/// leaked there or gone, and a leaked endpoint is never gone.
pub fn what_leaked_stays_out_of_reach()
    ensures { (t : Tree) → IsTree t → LeaksStay t }
{}

/// On a path of calls, an object is made at one moment at most. The same limit holds for its end, for the loss of its
/// peer, and for its leak.
pub fn once_each()
    ensures made { (S : State) (path : List (ℕ × State)) (x : ℕ) → IsConsistent S → IsCallPath S path
        → length (moments (made x) S path) ≤ 1 }
    ensures ended { (S : State) (path : List (ℕ × State)) (x : ℕ) → IsConsistent S → IsCallPath S path
        → length (moments (ended x) S path) ≤ 1 }
    ensures peer_closed { (S : State) (path : List (ℕ × State)) (x : ℕ) → IsConsistent S → IsCallPath S path
        → length (moments (peer_closed x) S path) ≤ 1 }
    ensures leaked { (S : State) (path : List (ℕ × State)) (x : ℕ) → IsConsistent S → IsCallPath S path
        → length (moments (leaked x) S path) ≤ 1 }
{}

/// On the path to each moment of every tree, each of the four happens to an object at one moment at most: that it is
/// made, ends, loses its peer, or is leaked.
pub fn once_on_each_path()
    ensures { (t : Tree) → IsTree t → HappenOnce t }
{}

/// If something happens at one moment of a path at most, the last such moment is the only one.
#[tactic(auto, using(crate::proofs::OnceLaws::last_laws))]
pub fn the_last_is_the_only_one()
    ensures { (happens : State → State → Bool) (S : State) (path : List (ℕ × State)) (n : ℕ)
        → length (moments happens S path) ≤ 1 → last_moment happens S path ≡ Some n
        → moments happens S path ≡ n ∷ [] }
{}

/// The moment that is found for a happening of an object is the only one on the path at which it happens. If none is
/// found, it happens at none.
pub fn a_moment_found_is_the_only_one()
    ensures only { (made : List Made) (m x n i : ℕ) (what : Happening) → AreMoments made → m ≤ length made
        → when_on what made m x ≡ Ok (Some n) → among (path made m) i ≡ true
        → at_moment (happens what x) made i ≡ true → i ≡ n }
    ensures none { (made : List Made) (m x i : ℕ) (what : Happening) → when_on what made m x ≡ Ok None
        → among (path made m) i ≡ true → at_moment (happens what x) made i ≡ false }
{}

/// The row of an object shows that the object is made, ends, or loses its peer. If the row is as it was, none of these
/// happened. A leak may leave the row as it is.
pub fn what_happens_shows_in_the_row()
    ensures made { (S T : State) (x : ℕ) → object S x ≡ object T x → made x S T ≡ false }
    ensures ended { (S T : State) (x : ℕ) → object S x ≡ object T x → ended x S T ≡ false }
    ensures peer_closed { (S T : State) (x : ℕ) → object S x ≡ object T x → peer_closed x S T ≡ false }
{}
