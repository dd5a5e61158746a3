//! The list of moments: how each was made, its record, and shortcuts up its path.

ghost use Rattle.std.specs.Prelude.{◌≡◌, ◌<◌, ◌≤◌, ◌+◌, ◌-◌, ◌++◌, ◌∷◌, [], ℕ, true, IfOk, OnOk, IfSome, length, reverse, slice_get};
ghost use Rattle.std.specs.Option.{option_copied, option_map};
ghost use Rattle.zt_rows.specs.Tests.{among};
ghost use Rattle.zt_store.specs.RecordRows.{all_fit};
ghost use Rattle.zt_history.specs.HistoryRefusals.{most_moments};
ghost use Rattle.zt_history.specs.ProofsOnly.Branches.{without_last};
ghost use Rattle.zt_history.specs.ProofsOnly.FourBytes.{four_byte_numbers};
ghost use Rattle.zt_history.specs.ProofsOnly.Forks.{IsAbove, IsRunBeyond, IsShortcut};
ghost use Rattle.zt_history.specs.ProofsOnly.MomentNodes.{IsTurned, record_at};
ghost use Rattle.zt_history.specs.TreeInvariant.{Falls};
ghost use Rattle.zt_history.specs.Tree.{call_at, parent_at, path, reply_at};

use crate::moment_nodes::MomentNodes;
use crate::working_store::WorkingStore;
use std::alloc::{AllocError, Global};
use std::marker::Model;
use zt_rows::{Call, Koid, Moment, Reply};
use zt_store::Record;

/// Two ways up a moment's path: a jump to a moment further up, and the first moment of its run. In a run, each moment
/// but the first was made at the one just before it.
#[derive(Clone, Copy)]
pub(crate) struct Shortcut {
    pub(crate) jump: Moment,
    pub(crate) first: Moment,
}

/// The moments after the opening, in the order in which they were made.
///
/// The records stand in a list of their own. So a store that goes over many moments reads nothing else of them. The
/// jumps are placed so that any moment of a path is reached by few jumps and parents: as many as the logarithm of the
/// path's length.
#[derive(Drop)]
pub(crate) struct Moments {
    nodes: MomentNodes,
    shortcuts: Vec<Shortcut>,
    records: Vec<Record>,
}

impl Model for Moments {
    ghost use Rattle.std.specs.Prelude.{◌&&◌, vec_capacity};
    ghost use Rattle.zt_history.specs.ProofsOnly.MomentNodes.{AreListed, Chronicle, made_in};
    ghost use Rattle.zt_history.specs.ProofsOnly.StoredNodes.{has_room};

    ghost Value = { Chronicle };

    ghost view = { λ m. record {
      made = made_in m.nodes.list;
      records = m.records.items;
      room = m.nodes.room && (has_room m.shortcuts.items (vec_capacity m.shortcuts) && has_room m.records.items (vec_capacity m.records));
    } };

    ghost invariant = { λ m. AreListed m.nodes.list m.shortcuts.items m.records.items };
}

impl Moments {
    /// The opening alone.
    pub(crate) fn new(alloc: Global) -> Result<Moments, AllocError>
        ensures made { IfOk result (λ moments. moments.made ≡ []) }
        ensures records { IfOk result (λ moments. moments.records ≡ []) }
    {
        Ok(Moments {
            nodes: MomentNodes::new(alloc)?,
            shortcuts: Vec::new(alloc),
            records: Vec::new(alloc),
        })
    }

    /// The last moment.
    pub(crate) fn last(&self) -> Moment
        ensures last { result ≡ length self.now.made }
        ensures few { result ≤ most_moments }
    {
        Moment(self.nodes.len() as u32)
    }

    /// The moment that is made next.
    pub(crate) fn next_moment(&self) -> Moment
        ensures { result ≡ length self.now.made + 1 }
    {
        Moment(self.nodes.len() as u32 + 1)
    }

    /// States what holds of every list of moments.
    pub(crate) fn limits(&self)
        ensures falls { Falls self.now.made }
        ensures few { length self.now.made ≤ most_moments }
    {
        let _nodes = &self.nodes;
    }

    /// The call that made a moment, with its process. There is none for the opening, nor beyond the last moment.
    pub(crate) fn call(&self, moment: Moment) -> Option<(Koid, &Call)>
        ensures { option_map (λ p. (p.0, p.1.now)) result ≡ call_at self.now.made moment }
    {
        if moment.0 == 0 {
            return None;
        }
        self.nodes.call((moment.0 - 1) as usize)
    }

    /// The reply of a moment's call. There is none for the opening, nor beyond the last moment.
    pub(crate) fn reply(&self, moment: Moment) -> Option<&Reply>
        ensures { option_copied result ≡ reply_at self.now.made moment }
    {
        if moment.0 == 0 {
            return None;
        }
        self.nodes.reply((moment.0 - 1) as usize)
    }

    /// The record by which a store goes over a moment. There is none for the opening, nor beyond the last moment.
    pub(crate) fn change(&self, moment: Moment) -> Option<&Record>
        ensures { option_copied result ≡ record_at self.now.records moment }
    {
        if moment.0 == 0 {
            return None;
        }
        self.records.get((moment.0 - 1) as usize)
    }

    /// The parent of a moment. The opening is its own parent.
    pub(crate) fn parent(&self, moment: Moment) -> Moment
        ensures { result ≡ parent_at self.now.made moment }
    {
        if moment.0 == 0 {
            return Moment(0);
        }
        match self.nodes.parent((moment.0 - 1) as usize) {
            Some(parent) => parent,
            None => Moment(0),
        }
    }

    /// The ways up from a moment. Those of the opening lead to itself.
    fn shortcut(&self, moment: Moment) -> Shortcut
        ensures { IsShortcut self.now.made result moment }
    {
        let alone = Shortcut {
            jump: Moment(0),
            first: moment,
        };
        if moment.0 == 0 {
            return alone;
        }
        match self.shortcuts.get((moment.0 - 1) as usize) {
            Some(shortcut) => *shortcut,
            None => alone,
        }
    }

    /// The jump for a moment that is made at this one. It spans the next two jumps if both go up equally far. Otherwise
    /// it leads to this moment.
    fn jump_beyond(&self, parent: Moment) -> Moment
        requires { parent ≤ length self.now.made }
        ensures { IsAbove self.now.made result parent }
    {
        self.limits();
        let near = self.shortcut(parent).jump;
        let far = self.shortcut(near).jump;
        let depth = self.depth(near);
        if self.depth(parent) - depth == depth - self.depth(far) {
            far
        } else {
            parent
        }
    }

    /// The first moment of the run, for a moment that is made at this one. If this is the last moment, that is the
    /// first of this moment's run. Otherwise it is the new moment.
    fn first_beyond(&self, parent: Moment) -> Moment
        requires { parent ≤ length self.now.made }
        ensures { IsRunBeyond self.now.made result parent }
    {
        if parent == self.last() {
            self.shortcut(parent).first
        } else {
            Moment(self.last().0 + 1)
        }
    }

    /// How many moments there are on the path to a moment.
    pub(crate) fn depth(&self, moment: Moment) -> u32
        requires { moment ≤ length self.now.made }
        ensures { result ≡ length (path self.now.made moment) }
    {
        if moment.0 == 0 {
            return 0;
        }
        match self.nodes.depth((moment.0 - 1) as usize) {
            Some(depth) => depth,
            None => unreachable!(),
        }
    }

    /// The moments after the opening up to a moment.
    pub(crate) fn path(&self, moment: Moment) -> Result<Vec<Moment>, AllocError>
        requires { moment ≤ length self.now.made }
        ensures { IfOk result (λ way. way.items ≡ path self.now.made moment) }
    {
        let mut way = self.beyond(Moment(0), moment)?;
        way.as_mut_slice().reverse();
        Ok(way)
    }

    /// The moments beyond one on the path to another, the last first. Allocates only the list, in one request, and
    /// nothing if the list is empty.
    pub(crate) fn beyond(&self, from: Moment, moment: Moment) -> Result<Vec<Moment>, AllocError>
        requires there { moment ≤ length self.now.made }
        requires above { IsAbove self.now.made from moment }
        ensures { IfOk result (λ way. path self.now.made moment ≡ path self.now.made from ++ reverse way.items) }
    {
        self.limits();
        let count = (self.depth(moment) - self.depth(from)) as usize;
        let mut way = Vec::with_capacity(*self.records.allocator(), count)?;
        let mut at = moment;
        for _ in 0..count {
            way.push_reserved(at);
            at = self.parent(at);
        }
        Ok(way)
    }

    /// The fork of the paths to two moments: the last moment that both have, or else the opening. Looks once at each
    /// run that one path has and the other has not.
    pub(crate) fn fork(&self, one: Moment, other: Moment) -> Moment
        ensures one { IsAbove self.now.made result one }
        ensures other { IsAbove self.now.made result other }
    {
        self.limits();
        let mut near = one;
        let mut far = other;
        while near != far {
            if near > far {
                near = self.beyond_run(near, far);
            } else {
                far = self.beyond_run(far, near);
            }
        }
        near
    }

    /// An earlier moment on the path to `from`: the limit if it is in the run of `from`, otherwise the parent of the
    /// run's first moment.
    fn beyond_run(&self, from: Moment, limit: Moment) -> Moment
        requires { limit < from }
        ensures above { IsAbove self.now.made result from }
        ensures earlier { result < from }
    {
        self.limits();
        let first = self.shortcut(from).first;
        if first <= limit {
            limit
        } else {
            self.parent(first)
        }
    }

    /// The last moment on the path to `from` that is no later than a limit, or else the opening. Takes one look if the
    /// limit is in the run of `from`. Otherwise it follows as many jumps and parents as the logarithm of the path's
    /// length.
    pub(crate) fn no_later(&self, from: Moment, limit: Moment) -> Moment
        ensures early { result ≤ limit }
        ensures same { (m : ℕ) → m ≤ limit → among (path self.now.made result) m ≡ among (path self.now.made from) m }
    {
        self.limits();
        let mut at = from;
        while at > limit {
            let shortcut = self.shortcut(at);
            at = if shortcut.first <= limit {
                limit
            } else if shortcut.jump >= limit {
                shortcut.jump
            } else {
                self.parent(at)
            };
        }
        at
    }

    /// Exchanges the rows of a moment's record with the store's. Never allocates.
    pub(crate) fn exchange_record(&mut self, store: &mut WorkingStore, moment: Moment)
        requires some { 0 < moment }
        requires there { moment ≤ length self.old.made }
        requires fit { all_fit store.old.places self.old.records ≡ true }
        ensures { IsTurned self.old self.new store.old store.new (moment - 1) }
    {
        store.swap(&mut self.records[(moment.0 - 1) as usize]);
    }

    /// Makes room for one more moment, so that `push` never allocates.
    pub(crate) fn reserve(&mut self) -> Result<(), AllocError>
        ensures made { self.new.made ≡ self.old.made }
        ensures records { self.new.records ≡ self.old.records }
        ensures room { OnOk result (self.new.room ≡ true) }
    {
        self.nodes.reserve()?;
        self.shortcuts.reserve(1)?;
        self.records.reserve(1)?;
        Ok(())
    }

    /// Adds the moment that a call of a process made at another, with its reply and its record. `reserve` must have
    /// made the room. Moves call and reply out of their places, and leaves others there.
    #[inline(always)]
    pub(crate) fn push(
        &mut self,
        at: Moment,
        process: Koid,
        call: &mut Call,
        reply: &mut Reply,
        change: Record,
    )
        requires room { self.old.room ≡ true }
        requires few { length self.old.made < most_moments }
        requires there { at ≤ length self.old.made }
        requires small { process < four_byte_numbers }
        ensures made { self.new.made ≡ self.old.made ++ record { parent = at; process = process; call = call.old; reply = reply.old } ∷ [] }
        ensures records { self.new.records ≡ self.old.records ++ change ∷ [] }
    {
        self.limits();
        let depth = self.depth(at) + 1;
        let shortcut = Shortcut {
            jump: self.jump_beyond(at),
            first: self.first_beyond(at),
        };
        self.shortcuts.push_reserved(shortcut);
        self.records.push_reserved(change);
        self.nodes.push(at, depth, process, call, reply);
    }

    /// Drops the last moment. Never allocates.
    pub(crate) fn drop_last(&mut self)
        requires { 0 < length self.old.made }
        ensures made { self.new.made ≡ without_last self.old.made }
        ensures records { self.new.records ≡ without_last self.old.records }
    {
        self.nodes.pop();
        self.shortcuts.pop();
        self.records.pop();
    }
}
