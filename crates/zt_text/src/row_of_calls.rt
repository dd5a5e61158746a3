//! Reads a session text of version 1 as a saved tree.

ghost use Rattle.std.specs.Prelude.{◌≡◌, ◌∷◌, [], codes, IfOk, IfErr};
ghost use Rattle.zt_rows.specs.CallsInARow.{as_moment, in_a_row, moments_from};
ghost use Rattle.zt_text.specs.Session.{session_of};
ghost use Rattle.zt_text.specs.SavedTexts.{IsUnreadTree};
ghost use Rattle.zt_text.specs.ProofsOnly.SavedTexts.{row_of};

use crate::session_text::read_session;
use std::alloc::{AllocError, Global};
use zt_rows::{Call, Items, Koid, Moment, Refusal, Saved, SavedBranch, SavedCall};

/// Reads the saved tree of a session text of version 1. Each call is made at the moment of the one before it.
#[tactic(auto, using(crate::proofs::SavedLemmas::row_read, crate::proofs::SavedLemmas::row_faulty, crate::proofs::SavedLemmas::row_wanted))]
pub(crate) fn read_row(alloc: Global, text: &[u8]) -> Result<Saved, (u64, Refusal)>
    ensures read { IfOk result (λ saved. row_of (session_of text.now) ≡ Ok saved) }
    ensures refused { IfErr result (λ fault. IsUnreadTree (row_of (session_of text.now)) fault) }
{
    let calls = read_session(alloc, text)?;
    match tree_of(alloc, calls) {
        Ok(saved) => Ok(saved),
        Err(_) => Err((0, Refusal::OutOfMemory)),
    }
}

/// Makes the saved tree of these calls. Each is made at the moment of the one before it.
fn tree_of(alloc: Global, calls: Vec<(Koid, Call)>) -> Result<Saved, AllocError>
    ensures { IfOk result (λ saved. saved ≡ in_a_row calls.items) }
{
    let branches = main_branch(alloc, as_moment(calls.len()))?;
    let moments = moments_of(alloc, calls)?;
    Ok(Saved {
        moments: Items::new(moments),
        branches,
        cursors: Items::new(Vec::new(alloc)),
    })
}

/// Makes the branch `main`, and no other.
fn main_branch(alloc: Global, head: Moment) -> Result<Items<SavedBranch>, AllocError>
    ensures { IfOk result (λ branches. branches ≡ record { name = codes "main"; head = head } ∷ []) }
{
    let name = Items::new(Vec::from_slice(alloc, b"main")?);
    let mut branches = Vec::new(alloc);
    branches.push(SavedBranch { name, head })?;
    Ok(Items::new(branches))
}

/// Makes the moments of these calls.
fn moments_of(alloc: Global, calls: Vec<(Koid, Call)>) -> Result<Vec<SavedCall>, AllocError>
    ensures { IfOk result (λ moments. moments.items ≡ moments_from 0 calls.items) }
{
    let mut moments = Vec::with_capacity(alloc, calls.len())?;
    'calls: for (process, call) in calls {
        let parent = as_moment(moments.len());
        moments.push(SavedCall {
            parent,
            process,
            call,
        })?;
    }
    Ok(moments)
}

/// Returns the moment of this number, or the moment with the largest number if this one is too large.
fn as_moment(number: usize) -> Moment
    ensures { result ≡ as_moment number }
{
    if number < u32::MAX as usize {
        Moment(number as u32)
    } else {
        Moment(u32::MAX)
    }
}
