//! States what holds of every history.

ghost use Rattle.std.specs.Prelude.{◌≤◌};
ghost use Rattle.zt_history.specs.Tree.{last_moment};
ghost use Rattle.zt_history.specs.TreeInvariant.{IsTree};

use zt_history::History;

/// The moments of a history are those of a tree, and the position is one of them.
pub(crate) fn limits(history: &History)
    ensures tree { IsTree history.now.tree }
    ensures within { history.now.position ≤ last_moment history.now.tree }
{
    history.position();
}
