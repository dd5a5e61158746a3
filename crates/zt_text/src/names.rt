//! Branch names and happenings in a line.

ghost use Rattle.std.specs.Prelude.{◌≡◌, IfOk, IfErr};
ghost use Rattle.std.specs.List.{list_all};
ghost use Rattle.zt_text.specs.Names.{is_visible, name_of, happening_of};
ghost use Rattle.zt_rows.specs.declared.refusals.Refusal.TheVariants.{OutOfMemory};

use std::alloc::Global;
use std::marker::Model;
use zt_rows::{Happening, Items, Refusal};

/// The name of a branch as its line has it, without memory of its own.
#[derive(Drop)]
pub struct Name<'a> {
    bytes: &'a [u8],
}

impl<'a> Model for Name<'a> {
    ghost use Rattle.std.specs.Prelude.{ℕ, List};

    ghost Value = { List ℕ };

    ghost view = { λ n. n.bytes.now };
}

impl<'a> Name<'a> {
    /// Reads a field as a name: one or more visible ASCII characters.
    #[tactic(auto, unfolding(crate::specs::Names::name_of))]
    pub fn of(field: &'a [u8]) -> Option<Name<'a>>
        ensures { result ≡ name_of field.now }
    {
        if !field.is_empty() && is_visible(field) {
            Some(Name { bytes: field })
        } else {
            None
        }
    }

    /// Copies the name to the heap. Its only error is `OutOfMemory`.
    pub fn to_items(&self, alloc: Global) -> Result<Items<u8>, Refusal>
        ensures ok { IfOk result (λ name. name ≡ self.now) }
        ensures refused { IfErr result (λ refusal. refusal ≡ OutOfMemory) }
    {
        let bytes = Vec::from_slice(alloc, self.bytes)?;
        Ok(Items::new(bytes))
    }
}

/// Whether each byte is a visible ASCII character.
fn is_visible(field: &[u8]) -> bool
    ensures { result ≡ list_all is_visible field.now }
{
    field.iter().all(|byte| matches!(*byte, b'!'..=b'~'))
}

/// Reads a field as a happening.
#[tactic(auto, unfolding(crate::specs::Names::happening_of))]
pub fn happening(field: &[u8]) -> Option<Happening>
    ensures { result ≡ happening_of field.now }
{
    if field == b"made".as_slice() {
        Some(Happening::Made)
    } else if field == b"ended".as_slice() {
        Some(Happening::Ended)
    } else if field == b"peer_closed".as_slice() {
        Some(Happening::PeerClosed)
    } else if field == b"leaked".as_slice() {
        Some(Happening::Leaked)
    } else {
        None
    }
}
