//! Adds koids to those that a walk found, looks them up, and lists them in rising order.

ghost use Rattle.std.specs.Prelude.{◌≡◌, ◌==◌, ◌<◌, ◌||◌, ℕ, false, true, not, length, slice_index_or, IfOk, OnOk};
ghost use Rattle.std.specs.BTreeSet.{contains};
ghost use Rattle.std.specs.Ordering.{nat_cmp};
ghost use Rattle.zt_rows.specs.Tests.{among};
ghost use Rattle.zt_jobs.specs.ProofsOnly.TaskTree.{IsRising};
ghost use Rattle.zt_jobs.specs.ProofsOnly.FoundKoids.{found};

use crate::found_set::FoundKoids;
use std::alloc::{AllocError, Global};
use std::collections::BTreeSet;
use zt_rows::Koid;

impl FoundKoids {
    /// No koids. Never allocates.
    pub(crate) fn new(alloc: Global) -> FoundKoids
        ensures { (x : ℕ) → found result x ≡ false }
    {
        FoundKoids {
            rising: Vec::new(alloc),
            others: BTreeSet::new(alloc),
        }
    }

    /// Whether the koid was found. Never allocates.
    fn has(&self, koid: Koid) -> bool
        ensures { result ≡ found self.now koid }
    {
        is_among(self.rising.as_slice(), koid.0) || self.others.contains(&koid.0)
    }

    /// Adds the koid. Returns whether it is new.
    pub(crate) fn insert(&mut self, koid: Koid) -> Result<bool, AllocError>
        ensures known { OnOk result ((x : ℕ) → found self.new x ≡ (found self.old x || (koid == x))) }
        ensures new { IfOk result (λ new. new ≡ not (found self.old koid)) }
    {
        if self.has(koid) {
            return Ok(false);
        }
        if is_above(self.rising.as_slice(), koid.0) {
            self.rising.push(koid.0)?;
            return Ok(true);
        }
        self.others.insert(koid.0)?;
        Ok(true)
    }

    /// The koids in rising order.
    pub(crate) fn by_koid(self, alloc: Global) -> Result<Vec<Koid>, AllocError>
        ensures members { IfOk result (λ list. among list.items ≡ found self) }
        ensures rising { IfOk result (λ list. IsRising list.items) }
    {
        let FoundKoids { rising, others } = self;
        if others.is_empty() {
            return koids_of(alloc, rising.as_slice());
        }
        let all = with_all(others, rising.as_slice())?;
        by_koid(alloc, all)
    }
}

/// Whether each of the rising numbers is below this one.
fn is_above(rising: &[u64], number: u64) -> bool
    requires { IsRising rising.now }
    ensures { result ≡ true → (k d : ℕ) → k < length rising.now → slice_index_or rising.now k d < number }
{
    match rising.last() {
        Some(last) => *last < number,
        None => true,
    }
}

/// Whether the number is one of the rising ones.
fn is_among(rising: &[u64], number: u64) -> bool
    requires { IsRising rising.now }
    ensures { result ≡ among rising.now number }
{
    if is_above(rising, number) {
        return false;
    }
    rising.binary_search(&number).is_ok()
}

/// The numbers as koids, in their order.
fn koids_of(alloc: Global, numbers: &[u64]) -> Result<Vec<Koid>, AllocError>
    ensures { IfOk result (λ koids. koids.items ≡ numbers.now) }
{
    let mut koids = Vec::new(alloc);
    for number in numbers {
        koids.push(Koid(*number))?;
    }
    Ok(koids)
}

/// The set with these numbers added.
fn with_all(mut set: BTreeSet<u64>, numbers: &[u64]) -> Result<BTreeSet<u64>, AllocError>
    ensures { IfOk result (λ all. (x : ℕ) → contains nat_cmp all x ≡ (among numbers.now x || contains nat_cmp set x)) }
{
    for number in numbers {
        set.insert(*number)?;
    }
    Ok(set)
}

/// The numbers of the set as koids, in rising order.
fn by_koid(alloc: Global, set: BTreeSet<u64>) -> Result<Vec<Koid>, AllocError>
    ensures members { IfOk result (λ list. among list.items ≡ contains nat_cmp set) }
    ensures rising { IfOk result (λ list. IsRising list.items) }
{
    let mut left = set;
    let mut list = Vec::new(alloc);
    'koids: loop {
        match left.pop_first() {
            Some(koid) => list.push(Koid(koid))?,
            None => return Ok(list),
        }
    }
}
