//! A second history with the calls of the first, in which a call is tried before it is moved.

use crate::comparison::agrees;
use std::alloc::{AllocError, Global};
use zt_history::History;
use zt_logs::{Cause, RecordedReply};
use zt_rows::{Call, Koid, Moment, Refusal, Reply};

/// A history in which calls are tried at any moment. A tried call stays in it, and no call of the first history is made
/// behind it.
pub(crate) struct Scratch {
    history: History,
    /// The moments that stand for those of the first history, from the opening on.
    moments: Vec<Moment>,
    /// How many moments the first history had ahead of each place of the order.
    heads: Vec<usize>,
    /// Whether no more calls can be tried, since the history takes no more.
    is_full: bool,
}

impl Drop for Scratch {
    fn drop(self) {
        let Scratch {
            history: _history,
            moments: _moments,
            heads: _heads,
            is_full: _is_full,
        } = self;
    }
}

impl Scratch {
    pub(crate) fn new(alloc: Global) -> Result<Scratch, Cause> {
        let history = History::new(alloc)?;
        let mut moments = Vec::new(alloc);
        push_moment(&mut moments, Moment(0))?;
        Ok(Scratch {
            history,
            moments,
            heads: Vec::new(alloc),
            is_full: false,
        })
    }

    /// Records that the first history is about to run the call of the next place.
    pub(crate) fn reach(&mut self, first: &History) -> Result<(), Cause> {
        push_head(&mut self.heads, first.last().0 as usize)?;
        Ok(())
    }

    /// Records that the call of the last place is moved to this one.
    pub(crate) fn move_head(&mut self, to: usize) -> Result<(), Cause> {
        let Some(head) = self.heads.get(to).copied() else {
            return Ok(());
        };
        let _last = self.heads.pop();
        insert_head(&mut self.heads, to, head)?;
        Ok(())
    }

    /// Makes the calls that the first history made since the last time.
    pub(crate) fn follow(&mut self, first: &History) -> Result<(), Cause> {
        let begin = self.moments.len();
        for number in begin..(first.last().0 as usize).saturating_add(1) {
            self.follow_one(first, number)?;
        }
        Ok(())
    }

    fn follow_one(&mut self, first: &History, number: usize) -> Result<(), Cause> {
        let Ok(moment) = u32::try_from(number) else {
            return Ok(());
        };
        let Some((process, call)) = first.call_of(Moment(moment)) else {
            return Ok(());
        };
        if let Some(made) = self.made_at(self.head(), process, call)? {
            push_moment(&mut self.moments, made)?;
        }
        Ok(())
    }

    /// The moment that stands for the last of the first history.
    pub(crate) fn head(&self) -> Moment {
        match self.moments.last() {
            Some(moment) => *moment,
            None => Moment(0),
        }
    }

    /// The moment ahead of the call at a place.
    pub(crate) fn before(&self, place: usize) -> Moment {
        match self.heads.get(place) {
            Some(head) => match self.moments.get(*head) {
                Some(moment) => *moment,
                None => self.head(),
            },
            None => self.head(),
        }
    }

    /// The reply of the call of a moment.
    pub(crate) fn reply(&self, moment: Moment) -> Option<&Reply> {
        self.history.reply_of(moment)
    }

    /// Makes a call at a moment, and returns the moment that it makes. None if its process is not alive there, or if no
    /// more calls can be tried. The error is an allocation failure.
    fn made_at(&mut self, at: Moment, process: Koid, call: &Call) -> Result<Option<Moment>, Cause> {
        if self.is_full {
            return Ok(None);
        }
        match self.history.call_at(at, process, call) {
            Ok(made) => {
                let (moment, _reply) = made;
                Ok(Some(moment))
            }
            Err(refusal) => match refusal {
                Refusal::NoProcess => Ok(None),
                Refusal::OutOfMemory => Err(Cause::OutOfMemory),
                _ => {
                    self.is_full = true;
                    Ok(None)
                }
            },
        }
    }

    /// Tries a call at a moment. Returns the moment that it makes, if its reply agrees with the log.
    pub(crate) fn tried(
        &mut self,
        at: Moment,
        process: Koid,
        call: &Call,
        recorded: &RecordedReply,
    ) -> Result<Option<Moment>, Cause> {
        let Some(moment) = self.made_at(at, process, call)? else {
            return Ok(None);
        };
        if agrees(recorded, self.history.reply_of(moment)) {
            Ok(Some(moment))
        } else {
            Ok(None)
        }
    }
}

fn push_moment(moments: &mut Vec<Moment>, moment: Moment) -> Result<(), AllocError> {
    moments.push(moment)?;
    Ok(())
}

fn push_head(heads: &mut Vec<usize>, head: usize) -> Result<(), AllocError> {
    heads.push(head)?;
    Ok(())
}

/// Inserts a number at a place, or at the end if there are fewer.
fn insert_head(heads: &mut Vec<usize>, place: usize, head: usize) -> Result<(), AllocError> {
    heads.insert(place.min(heads.len()), head)?;
    Ok(())
}
