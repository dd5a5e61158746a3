//! The paths to a moment and to the position, and the rows along them, read from the records of their moments.

ghost use Rattle.std.specs.Prelude.{◌≡◌, ◌≤◌, IfOk, IfErr, length, take};
ghost use Rattle.std.specs.Option.{option_copied};
ghost use Rattle.zt_rows.specs.State.{row};
ghost use Rattle.zt_history.specs.RowHappenings.{is_there};
ghost use Rattle.zt_history.specs.TreeInvariant.{recorded_at};
ghost use Rattle.zt_history.specs.Tree.{path, end_of, state_at};
ghost use Rattle.zt_queries.specs.ProofsOnly.RowHappenings.{row_over, IsFork, AreWays};

use zt_history::History;
use zt_rows::{Moment, Refusal, Row, RowKey};

/// The path to the moment that is asked about, the path to the position, and how many moments they share.
pub(crate) struct PathPair {
    pub(crate) way: Vec<Moment>,
    pub(crate) here: Vec<Moment>,
    pub(crate) shared: usize,
}

/// Drops both paths in one call. So the proof of a function that owns them does not go through them at each exit.
impl Drop for PathPair {
    fn drop(self) {
        let PathPair {
            way: _way,
            here: _here,
            shared: _shared,
        } = self;
    }
}

/// The paths to a moment and to the position. Fails only if an allocation fails.
pub(crate) fn ways_to(history: &History, at: Moment) -> Result<PathPair, Refusal>
    requires there { at ≤ length history.now.tree.made }
    ensures ways { IfOk result (λ ways. AreWays history.now ways.way.items ways.here.items ways.shared) }
    ensures way { IfOk result (λ ways. ways.way.items ≡ path history.now.tree.made at) }
    ensures refused { IfErr result (λ refusal. refusal ≡ Refusal.OutOfMemory) }
{
    let way = path_to(history, at)?;
    let here = path_to(history, history.position())?;
    let shared = shared_by(way.as_slice(), here.as_slice());
    Ok(PathPair { way, here, shared })
}

/// The path to a moment.
fn path_to(history: &History, at: Moment) -> Result<Vec<Moment>, Refusal>
    requires there { at ≤ length history.now.tree.made }
    ensures ok { IfOk result (λ way. way.items ≡ path history.now.tree.made at) }
    ensures refused { IfErr result (λ refusal. refusal ≡ Refusal.OutOfMemory) }
{
    match history.path(at) {
        Ok(way) => Ok(way),
        Err(_) => Err(Refusal::OutOfMemory),
    }
}

/// How many moments two paths share, counted from the opening on.
fn shared_by(way: &[Moment], here: &[Moment]) -> usize
    ensures { IsFork way.now here.now result }
{
    let mut shared = 0;
    while shared < way.len() && shared < here.len() && way[shared] == here[shared] {
        shared += 1;
    }
    shared
}

/// The row under the key at the last moment that both paths share.
pub(crate) fn row_at_fork<'a>(
    history: &'a History,
    ways: &PathPair,
    key: &RowKey,
) -> Option<&'a Row>
    requires { AreWays history.now ways.now.way.items ways.now.here.items ways.now.shared }
    ensures { option_copied result ≡ row (state_at history.now.tree.made (end_of (take ways.now.shared ways.now.way.items))) key.now }
{
    let mut row = history.store().row(*key);
    for i in (ways.shared..ways.here.len()).rev() {
        row = row_over(history, ways.here[i], key, row);
    }
    row
}

/// The row on the other side of a moment's call, from the row on this side: the record's row if the record has the key,
/// otherwise the row itself.
pub(crate) fn row_over<'a>(
    history: &'a History,
    moment: Moment,
    key: &RowKey,
    row: Option<&'a Row>,
) -> Option<&'a Row>
    ensures { option_copied result ≡ row_over (recorded_at history.now.tree.made history.now.position moment) key.now (option_copied row.entry) }
{
    let Some(record) = history.record_of(moment) else {
        return row;
    };
    match record.held(*key) {
        Some(held) => held,
        None => row,
    }
}

/// Whether the row is that of an object.
pub(crate) fn is_there(row: Option<&Row>) -> bool
    ensures { result ≡ is_there (option_copied row.entry) }
{
    Row::as_object(row).is_some()
}
