//! The forms of rows, of packets, and of what keeps an object.

ghost use Rattle.std.specs.Prelude.{◌≡◌};
ghost use Rattle.zt_json.specs.ProofsOnly.Done.{Gives};
ghost use Rattle.zt_json.specs.Rows.{packet_of, row_of, place_of, packet, object_row, packet_row, row, row_rest};

use crate::members::Members;
use crate::steps;
use crate::steps::Step;
use crate::words::Word;
use std::alloc::AllocError;

/// Returns the fields of a packet behind the word that says whose it is.
#[tactic(auto, unfolding(crate::specs::Rows::packet_of))]
fn packet_of(kind: &str) -> &'static [Step]
    ensures { result.now ≡ packet_of kind.now }
{
    if kind == "user" {
        &steps::USER_PACKET
    } else {
        &steps::SIGNAL_PACKET
    }
}

/// Returns the fields of a row of one form behind its name.
#[tactic(auto, unfolding(crate::specs::Rows::row_of))]
fn row_of(name: &str) -> &'static [Step]
    ensures { result.now ≡ row_of name.now }
{
    if name == "entry" {
        &steps::ENTRY_ROW
    } else if name == "msg" {
        &steps::MESSAGE_ROW
    } else if name == "wait" {
        &steps::WAIT_ROW
    } else {
        &steps::COUNTERS_ROW
    }
}

/// Returns the numbers of a place, or of a support, behind its name.
#[tactic(auto, unfolding(crate::specs::Rows::place_of))]
pub fn place_of(name: &str) -> &'static [Step]
    ensures { result.now ≡ place_of name.now }
{
    if name == "entry" {
        &steps::AT_ENTRY
    } else if name == "message" {
        &steps::AT_MESSAGE
    } else if name == "child" {
        &steps::ONE_KOID
    } else {
        &steps::NOTHING
    }
}

impl<'a> Members<'a> {
    /// Reads a packet, beginning with `user` or `signal`.
    pub fn packet(&mut self) -> Result<bool, AllocError>
        ensures { Gives result (packet self.old) self.new }
    {
        let Some(kind) = self.word(Word::Packet)? else {
            return Ok(false);
        };
        self.perform_all(packet_of(kind))
    }

    /// Reads the row of a packet behind its name.
    fn packet_row(&mut self) -> Result<bool, AllocError>
        ensures { Gives result (packet_row self.old) self.new }
    {
        if !self.perform_all(&steps::PACKET_ROW)? {
            return Ok(false);
        }
        if !self.packet()? {
            return Ok(false);
        }
        if self.is_read() {
            return Ok(true);
        }
        self.perform_all(&steps::WAITING_HANDLE)
    }

    /// Reads the row of an object behind its name, or its koid with `gone`.
    fn object_row(&mut self) -> Result<bool, AllocError>
        ensures { Gives result (object_row self.old) self.new }
    {
        if !self.perform_all(&steps::ONE_KOID)? {
            return Ok(false);
        }
        if self.next_is(Word::Gone) {
            return self.text(Word::Life);
        }
        self.perform_all(&steps::OBJECT_REST)
    }

    /// Reads a row behind its name.
    fn row_rest(&mut self, name: &str) -> Result<bool, AllocError>
        ensures { Gives result (row_rest name.now self.old) self.new }
    {
        if name == "object" {
            self.object_row()
        } else if name == "packet" {
            self.packet_row()
        } else {
            self.perform_all(row_of(name))
        }
    }

    /// Reads a row.
    pub fn row(&mut self) -> Result<bool, AllocError>
        ensures { Gives result (row self.old) self.new }
    {
        let Some(name) = self.word(Word::Row)? else {
            return Ok(false);
        };
        self.row_rest(name)
    }
}
