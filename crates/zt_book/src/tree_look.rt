//! A look at the tree of a book that leaves the tree as it is.

use zt_history::History;

/// Looks at a tree of moments. It may move the store over the tree, but cannot change the tree.
pub trait TreeLook {
    ghost use Rattle.std.specs.Prelude.{◌≡◌};
    ghost use Rattle.zt_history.specs.Timeline.{Timeline};

    /// The result of the look.
    type Found;

    /// Which results a look at a history may give, and the timeline of the history after the look.
    ghost looks: { Self → Timeline → Self.Found → Timeline → Type 0 };

    /// Looks at the history.
    fn look(&self, history: &mut History) -> Self::Found
        ensures tree { history.new.tree ≡ history.old.tree }
        ensures looks { looks self.now history.old result history.new };
}
