//! Counts how the calls of each process were answered.

ghost use Rattle.std.specs.Prelude.{◌≡◌, ◌+◌, ◌++◌, ◌∷◌, [], ℕ, List, if◌then◌else◌, map, Some, IfOk, OnOk};
ghost use Rattle.std.specs.BTreeMap.{get, IsOrdered};
ghost use Rattle.std.specs.Option.{unwrap_or};
ghost use Rattle.std.specs.Ordering.{is_eq};
ghost use Rattle.zt_history.specs.Tree.{Made};
ghost use Rattle.zt_bits.specs.Words.{status_number};
ghost use Rattle.zt_look.specs.CallCounts.{AreCallCounts, made_along};
ghost use Rattle.zt_look.specs.ProofsOnly.CountedCalls.{AreCallsCounted, answer_cmp, count_told, status_at};

use std::alloc::{AllocError, Global};
use std::collections::BTreeMap;
use zt_bits::Status;
use zt_history::History;
use zt_rows::{Koid, Moment};

/// How often the calls of a process were answered with a status.
#[derive(Clone, Copy)]
pub struct CallCount {
    pub process: Koid,
    pub status: Status,
    pub count: u64,
}

/// How often the calls of these moments were answered with each status, by rising process, and then in the order of the
/// statuses. Looks at each call once, and moves no store.
pub(crate) fn call_counts(
    alloc: Global,
    history: &History,
    way: &[Moment],
) -> Result<Vec<CallCount>, AllocError>
    ensures { IfOk result (λ list. AreCallCounts history.now.tree.made way.now list.items) }
{
    let counts = counted(alloc, history, way)?;
    let list = listed(alloc, counts)?;
    Ok(list)
}

/// How often each answer was given, by process and by the place of the status.
fn counted(
    alloc: Global,
    history: &History,
    way: &[Moment],
) -> Result<BTreeMap<(u64, u8), u64>, AllocError>
    ensures counted { IfOk result (AreCallsCounted (made_along history.now.tree.made way.now)) }
    ensures ordered { IfOk result (IsOrdered answer_cmp) }
{
    let mut counts = BTreeMap::new(alloc);
    for moment in way {
        count_call(&mut counts, history, *moment)?;
    }
    let _answers = counts.len();
    Ok(counts)
}

/// Counts the call of a moment, if a call made it.
fn count_call(
    counts: &mut BTreeMap<(u64, u8), u64>,
    history: &History,
    moment: Moment,
) -> Result<(), AllocError>
    ensures { OnOk result ((es : List Made) → AreCallsCounted es counts.old → AreCallsCounted (es ++ made_along history.now.tree.made (moment ∷ [])) counts.new) }
{
    match history.call_of(moment) {
        Some(caller) => match history.reply_of(moment) {
            Some(reply) => count_one(counts, caller.0, reply.status()),
            None => Ok(()),
        },
        None => Ok(()),
    }
}

/// Counts one more answer.
fn count_one(
    counts: &mut BTreeMap<(u64, u8), u64>,
    process: Koid,
    status: Status,
) -> Result<(), AllocError>
    ensures { OnOk result ((k : ℕ × ℕ) → get answer_cmp counts.new k
        ≡ (if is_eq (answer_cmp (process, status_number status) k)
        then Some (unwrap_or (get answer_cmp counts.old (process, status_number status)) 0 + 1) else get answer_cmp counts.old k)) }
{
    let key = (process.0, status.number());
    let count = match counts.get(&key) {
        Some(count) => *count,
        None => 0,
    };
    let Some(more) = count.checked_add(1) else {
        return Err(AllocError);
    };
    counts.insert(key, more)?;
    Ok(())
}

/// The counts, in their order.
fn listed(alloc: Global, counts: BTreeMap<(u64, u8), u64>) -> Result<Vec<CallCount>, AllocError>
    ensures { IfOk result (λ list. list.items ≡ map count_told counts.entries) }
{
    let mut left = counts;
    let mut list = Vec::new(alloc);
    'counts: while let Some((answer, count)) = left.pop_first() {
        list.push(CallCount {
            process: Koid(answer.0),
            status: status_at(answer.1),
            count,
        })?;
    }
    Ok(list)
}

/// The status of this place. For any later place, it is the last status.
fn status_at(number: u8) -> Status
    ensures { result ≡ status_at number }
{
    match number {
        0 => Status::Ok,
        1 => Status::BadHandle,
        2 => Status::WrongType,
        3 => Status::AccessDenied,
        4 => Status::InvalidArgs,
        5 => Status::NotSupported,
        6 => Status::PeerClosed,
        7 => Status::ShouldWait,
        8 => Status::BufferTooSmall,
        9 => Status::TimedOut,
        10 => Status::BadState,
        11 => Status::OutOfRange,
        12 => Status::NotFound,
        _ => Status::AlreadyBound,
    }
}
