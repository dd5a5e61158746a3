//! The interface between a client's lines and what answers them.

use zt_queries::Frozen;
use zt_rows::{Answer, Command, Refusal};

/// Answers the commands of one client: a book, or the client's pass of a shared book.
pub(crate) trait Responder {
    ghost use Rattle.zt_rows.specs.declared.calls.Command.{Command};
    ghost use Rattle.zt_console.specs.Conversations.{Given};

    /// Which answers are possible, and the responder after each.
    ghost asks: { Self → Command → Given → Self → Type 0 };

    /// What must hold so that the responder can answer.
    ghost ready: { Self → Type 0 };

    /// Answers a command. The answer to a pin comes with a copy of the history at the pinned moment.
    fn ask(&mut self, request: &Command) -> Result<(Answer, Option<Frozen>), Refusal>
        requires { ready self.old }
        ensures asks { asks self.old request.now result self.new }
        ensures ready { ready self.new };

    /// Hears that a line was answered with this text.
    fn hear(&self, line: &[u8], text: &[u8]) {
        let _ = line;
        let _ = text;
    }
}
