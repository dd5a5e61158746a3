//! Tells from an object's rows before and after a call whether it was made, ended or lost its peer.

ghost use Rattle.std.specs.Prelude.{◌≡◌, ◌&&◌, false, not, true};
ghost use Rattle.std.specs.Option.{option_copied};
ghost use Rattle.zt_rows.specs.Reads.{is_live};
ghost use Rattle.zt_rows.specs.Tests.{is_endpoint};
ghost use Rattle.zt_history.specs.RowHappenings.{is_cut_off, shows};

use bitflags::Flags;
use zt_bits::{Kind, Signals};
use zt_rows::{Life, ObjectRow, Row};

/// Something that happens to an object and shows in its row.
#[derive(Clone, Copy)]
pub enum RowHappening {
    Made,
    Ended,
    PeerClosed,
}

/// The changes of an object by a call, as the rows before and after it show them.
#[derive(Clone, Copy)]
pub(crate) struct ShownChanges {
    pub(crate) made: bool,
    pub(crate) ended: bool,
    pub(crate) peer_closed: bool,
}

/// Nothing happened.
const NOTHING_SHOWN: ShownChanges = ShownChanges {
    made: false,
    ended: false,
    peer_closed: false,
};

/// The changes that the row before and the row after show.
pub(crate) fn shown_changes(before: Option<&Row>, after: Option<&Row>) -> ShownChanges
    ensures made { result.made ≡ shows RowHappening.Made (option_copied before.entry) (option_copied after.entry) }
    ensures ended { result.ended ≡ shows RowHappening.Ended (option_copied before.entry) (option_copied after.entry) }
    ensures peer_closed { result.peer_closed ≡ shows RowHappening.PeerClosed (option_copied before.entry) (option_copied after.entry) }
{
    match (Row::as_object(before), Row::as_object(after)) {
        (Some(before), Some(after)) => changes_between(before, after),
        (None, Some(after)) => ShownChanges {
            made: true,
            ended: false,
            peer_closed: is_cut_off(after),
        },
        (Some(before), None) => ShownChanges {
            made: false,
            ended: before.life == Life::Live,
            peer_closed: false,
        },
        (None, None) => NOTHING_SHOWN,
    }
}

/// The changes that the rows show of an object that was there before and is there after. Most pairs of rows are alike
/// in all that can show.
fn changes_between(before: &ObjectRow, after: &ObjectRow) -> ShownChanges
    ensures made { result.made ≡ false }
    ensures ended { result.ended ≡ (is_live before.now.life && not (is_live after.now.life)) }
    ensures peer_closed { result.peer_closed ≡ (not (is_cut_off before.now) && is_cut_off after.now) }
{
    if is_alike(before, after) {
        return NOTHING_SHOWN;
    }
    ShownChanges {
        made: false,
        ended: before.life == Life::Live && after.life != Life::Live,
        peer_closed: !is_cut_off(before) && is_cut_off(after),
    }
}

/// Whether the rows are alike in all that can show.
fn is_alike(before: &ObjectRow, after: &ObjectRow) -> bool
    ensures life { result ≡ true → is_live before.now.life ≡ is_live after.now.life }
    ensures cut_off { result ≡ true → is_cut_off before.now ≡ is_cut_off after.now }
{
    before.kind == after.kind && before.signals == after.signals && before.life == after.life
}

/// Whether the object is an endpoint on which the signal stands that its peer is closed.
fn is_cut_off(object: &ObjectRow) -> bool
    ensures { result ≡ is_cut_off object.now }
{
    object.signals.contains(Signals::PEER_CLOSED) && is_endpoint(object.kind)
}

/// Whether objects of this kind are ends of a channel or of an event pair.
fn is_endpoint(kind: Kind) -> bool
    ensures { result ≡ is_endpoint kind }
{
    matches!(kind, Kind::Channel | Kind::EventPair)
}
