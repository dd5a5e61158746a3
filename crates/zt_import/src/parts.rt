//! Lines that are several calls: which call ends the line, and whose reply is that of the line.

ghost use Rattle.std.specs.Prelude.{◌≡◌};
ghost use Rattle.zt_import.specs.Parts.{is_last, is_counted, ahead_of, answering, is_ok_at};

use crate::schedule::AskedCall;
use crate::taken::Taken;
use zt_logs::LinePart;
use zt_rows::Moment;

/// Whether a call is the last of its line.
pub(crate) fn is_last(part: LinePart) -> bool
    ensures { result ≡ is_last part }
{
    part.count <= part.ahead.saturating_add(1)
}

/// Whether a call counts as its line: it is the last, and no other call of the line counts in its place.
pub(crate) fn is_counted(part: LinePart) -> bool
    ensures { result ≡ is_counted part }
{
    is_last(part) && !part.is_apart
}

/// The calls of a line ahead of its last, which has this number. `ahead` is how many there are.
pub(crate) fn ahead_of(asked: &[AskedCall], number: usize, ahead: usize) -> &[AskedCall]
    ensures { result.now ≡ ahead_of number ahead asked.now }
{
    let first = number.saturating_sub(ahead).min(asked.len());
    let behind = &asked[first..];
    &behind[..behind.len().min(ahead)]
}

/// The moment of the first of these calls that was not ok; `last` if all were ok.
#[tactic(auto, using(crate::proofs::PartLaws::answering_next, crate::proofs::PartLaws::answering_here, crate::proofs::PartLaws::answering_last))]
pub(crate) fn answering(taken: &Taken, asked: &[AskedCall], last: Option<Moment>) -> Option<Moment>
    ensures { result ≡ answering taken.now.tree.made asked.now last }
{
    for place in 0..asked.len() {
        let call = asked[place];
        if !is_ok_at(taken, call.moment) {
            return call.moment;
        }
    }
    last
}

/// Whether the call of a moment was ok. A call without a moment was not.
fn is_ok_at(taken: &Taken, moment: Option<Moment>) -> bool
    ensures { result ≡ is_ok_at taken.now.tree.made moment }
{
    match taken.reply(&moment) {
        Some(reply) => reply.status().number() == 0,
        None => false,
    }
}
