//! States what holds of every history.

ghost use Rattle.zt_history.specs.TreeInvariant.{IsTree};

use zt_history::History;

/// The moments of a history are those of a tree.
pub(crate) fn limits(history: &History)
    ensures { IsTree history.now.tree }
{
    history.position();
}
