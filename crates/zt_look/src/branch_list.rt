//! Lists the branches of a history, and where they leave one another.

ghost use Rattle.std.specs.Prelude.{◌≡◌, ◌+◌, ◌<◌, take, length, get_or, None, IfOk};
ghost use Rattle.std.specs.Option.{option_map};
ghost use Rattle.zt_history.specs.Tree.{head_at};
ghost use Rattle.zt_look.specs.BranchList.{branches_of, leaving};
ghost use Rattle.zt_look.specs.ProofsOnly.BranchMarks.{AreMarks, marked};

use crate::limits::limits;
use std::alloc::{AllocError, Global};
use zt_history::{BranchId, History};
use zt_rows::Moment;

/// A branch: its number, its head, and where it leaves the branches before it. This is the last moment that leads to
/// its head and to that of an earlier branch, with the first such branch. The first branch leaves none.
#[derive(Clone, Copy)]
pub struct BranchLook {
    pub id: BranchId,
    pub head: Moment,
    pub leaves: Option<(BranchId, Moment)>,
}

/// The branches of a history in their order. Goes from each head up to the first moment that an earlier branch has, so
/// that it meets each moment once. Allocates a mark for each moment.
pub fn branches(alloc: Global, history: &History) -> Result<Vec<BranchLook>, AllocError>
    ensures { IfOk result (λ list. list.items ≡ branches_of history.now.tree) }
{
    limits(history);
    let mut marks = vec![in alloc; None; history.last().0 as usize + 1]?;
    let mut list = Vec::new(alloc);
    for number in 0..history.branches() {
        let id = BranchId(number);
        let leaves = mark_line(&mut marks, history, id);
        list.push(BranchLook {
            id,
            head: history.head(id),
            leaves,
        })?;
    }
    Ok(list)
}

/// Marks the moments from the head of a branch up to the first one that an earlier branch marked. Returns that moment
/// with its mark.
fn mark_line(
    marks: &mut Vec<Option<BranchId>>,
    history: &History,
    id: BranchId,
) -> Option<(BranchId, Moment)>
    requires branch { id < length history.now.tree.branches }
    requires size { length marks.old.items ≡ length history.now.tree.made + 1 }
    requires marks { AreMarks history.now.tree.made (take id history.now.tree.branches) marks.old.items }
    ensures size { length marks.new.items ≡ length marks.old.items }
    ensures marks { AreMarks history.now.tree.made (take (id + 1) history.now.tree.branches) marks.new.items }
    ensures leaves { result ≡ leaving history.now.tree.made (take id history.now.tree.branches) (head_at history.now.tree.branches id) }
{
    limits(history);
    let mut moment = history.head(id);
    'line: while moment.0 > 0 && marks[moment.0 as usize].is_none() {
        marks[moment.0 as usize] = Some(id);
        moment = history.parent_of(moment);
    }
    meet(marks, moment, id)
}

/// Returns the mark of a moment. If it has none, marks it with this branch.
fn meet(
    marks: &mut Vec<Option<BranchId>>,
    moment: Moment,
    id: BranchId,
) -> Option<(BranchId, Moment)>
    requires { moment < length marks.old.items }
    ensures told { result ≡ option_map (λ j. (j, moment)) (get_or marks.old.items moment None) }
    ensures marked { marks.new.items ≡ marked marks.old.items moment id }
{
    let place = moment.0 as usize;
    match marks[place] {
        Some(first) => Some((first, moment)),
        None => {
            marks[place] = Some(id);
            None
        }
    }
}
