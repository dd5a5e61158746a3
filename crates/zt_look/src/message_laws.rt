//! A law of the messages that are listed. The law is the contract of a function that does nothing.

ghost use Rattle.std.specs.Prelude.{◌≡◌, ℕ, List, Ok};
ghost use Rattle.std.specs.List.{AllByRecursion};
ghost use Rattle.zt_history.specs.Tree.{Tree};
ghost use Rattle.zt_history.specs.TreeInvariant.{IsTree};
ghost use Rattle.zt_look.specs.declared.message_list.QueuedMessage.{QueuedMessage};
ghost use Rattle.zt_look.specs.MessageList.{messages_on};
ghost use Rattle.zt_look.specs.QueuedMessages.{IsQueued};

/// Each listed message came at a moment of the path: its endpoint had none of its number before, and has it after. It
/// went at a later moment, as the call there tells, or one of its number is still there at the end.
pub fn messages_are_as_the_queues_tell()
    ensures { (t : Tree) (at e : ℕ) (list : List QueuedMessage) → IsTree t → messages_on t at e ≡ Ok list
        → AllByRecursion (IsQueued t.made at e) list }
{}
