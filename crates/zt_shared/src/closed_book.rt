//! Closes a shared book.

ghost use Rattle.std.specs.Prelude.{◌≡◌, All, map, length, IsPermutation};
ghost use Rattle.zt_book.specs.Log.{Replays};
ghost use Rattle.zt_shared.specs.Sharing.{IsOneLog, numbers};

use crate::account::Naming;
use crate::pass::{Beginning, Pass};
use crate::shared::{OpenedBook, Shared};
use zt_book::{Book, Log};

/// Closes a shared book when all its passes are back, in any order, and returns the book. Its log is the one that `close`
/// returns. The log begins where the shared book began, even if there are no clients, and ends in the book's session. Never
/// allocates.
pub fn close_book<A: Naming + Beginning, B: Naming, C: Naming, D: Naming>(
    opened: OpenedBook<A, B, C, D>,
    mut passes: Vec<Pass<A, B, C, D>>,
) -> Book
    requires all { IsPermutation (numbers A.clients) (map (λ pass. pass.client) passes.items) }
    ensures log { IsOneLog A.clients passes.items result.log }
    ensures end { All (λ pass. Replays pass.base result.log result.session) passes.items }
    ensures begun { Replays opened.base result.log result.session }
    ensures clients { length result.session.clients ≡ A.clients }
{
    let OpenedBook { shared, mut told } = opened;
    let Shared { lock } = shared;
    let mut locked = lock.into_inner();
    locked.agree_on_beginning(&mut told);
    locked.agree_with_all(&mut passes);
    locked.into_book()
}

/// Closes a shared book when all its passes are back, in any order, and returns its log. Each pass has its client's rows of this
/// log. Never allocates.
pub fn close<A: Naming + Beginning, B: Naming, C: Naming, D: Naming>(
    opened: OpenedBook<A, B, C, D>,
    passes: Vec<Pass<A, B, C, D>>,
) -> Log
    requires all { IsPermutation (numbers A.clients) (map (λ pass. pass.client) passes.items) }
    ensures { IsOneLog A.clients passes.items result }
{
    close_book(opened, passes).into_log()
}
