//! The names of objects and handles, by what they name.

ghost use Rattle.std.specs.Prelude.{◌≡◌, ℕ, [], IfOk, OnOk};
ghost use Rattle.std.specs.Option.{option_copied};
ghost use Rattle.std.specs.BTreeMap.{get};
ghost use Rattle.std.specs.Ordering.{nat_cmp};
ghost use Rattle.zt_text.specs.Lines.{lines_of};
ghost use Rattle.zt_text.specs.Notes.{name_in, newer_name};
ghost use Rattle.zt_text.specs.ProofsOnly.Notes.{pair_cmp, IsTableOf};
ghost use Rattle.zt_text.specs.declared.name_lines.Subject.TheVariants.{Object, Handle};

use crate::name_lines::{Subject, name_in};
use crate::session_text::next_line;
use std::alloc::{AllocError, Global};
use std::collections::BTreeMap;
use zt_rows::{HandleValue, Items, Koid};

/// The texts of names: those of objects by their koids, and those of handles by their processes and values.
#[derive(Drop)]
pub struct NameTable {
    pub objects: BTreeMap<u64, Items<u8>>,
    pub handles: BTreeMap<(u64, u32), Items<u8>>,
}

impl NameTable {
    /// A table without names. Allocates nothing.
    pub fn new(alloc: Global) -> NameTable
        ensures { IsTableOf result [] }
    {
        NameTable {
            objects: BTreeMap::new(alloc),
            handles: BTreeMap::new(alloc),
        }
    }

    /// Collects the names of these lines. Of two names for one object or handle the last counts.
    pub fn of_lines(alloc: Global, lines: &[u8]) -> Result<NameTable, AllocError>
        ensures { IfOk result (λ table. IsTableOf table (lines_of lines.now)) }
    {
        let mut table = NameTable::new(alloc);
        let mut left = lines;
        'lines: while !left.is_empty() {
            let (line, others) = next_line(left);
            table.add_line(alloc, line)?;
            left = others;
        }
        Ok(table)
    }

    /// Adds the name of a line, if it names something.
    fn add_line(&mut self, alloc: Global, line: &[u8]) -> Result<(), AllocError>
        ensures objects { OnOk result ((koid : ℕ) → get nat_cmp self.new.objects koid ≡ newer_name (Object koid) (get nat_cmp self.old.objects koid) (name_in line.now)) }
        ensures handles { OnOk result ((process handle : ℕ) → get pair_cmp self.new.handles (process, handle) ≡ newer_name (Handle process handle) (get pair_cmp self.old.handles (process, handle)) (name_in line.now)) }
    {
        match name_in(line) {
            Some((subject, text)) => self.add(alloc, subject, text),
            None => Ok(()),
        }
    }

    /// Adds a name.
    #[tactic(auto, using(crate::proofs::NameTables::same_pair))]
    fn add(&mut self, alloc: Global, subject: Subject, text: &[u8]) -> Result<(), AllocError>
        ensures objects { OnOk result ((koid : ℕ) → get nat_cmp self.new.objects koid ≡ newer_name (Object koid) (get nat_cmp self.old.objects koid) (Some (subject, text.now))) }
        ensures handles { OnOk result ((process handle : ℕ) → get pair_cmp self.new.handles (process, handle) ≡ newer_name (Handle process handle) (get pair_cmp self.old.handles (process, handle)) (Some (subject, text.now))) }
    {
        let copied = Items::new(Vec::from_slice(alloc, text)?);
        match subject {
            Subject::Object(koid) => {
                self.objects.insert(koid.0, copied)?;
            }
            Subject::Handle(process, handle) => {
                self.handles.insert((process.0, handle.0), copied)?;
            }
        }
        Ok(())
    }

    /// Returns the name of an object.
    pub fn object(&self, koid: Koid) -> Option<&[u8]>
        ensures { option_copied result ≡ get nat_cmp self.now.objects koid }
    {
        match self.objects.get(&koid.0) {
            Some(text) => Some(text.as_slice()),
            None => None,
        }
    }

    /// Returns the name of a handle.
    pub fn handle(&self, process: Koid, handle: HandleValue) -> Option<&[u8]>
        ensures { option_copied result ≡ get pair_cmp self.now.handles (process, handle) }
    {
        match self.handles.get(&(process.0, handle.0)) {
            Some(text) => Some(text.as_slice()),
            None => None,
        }
    }
}
