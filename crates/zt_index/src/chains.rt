//! Hash buckets of numbered items: each is a list that is linked by rising number.

ghost use Rattle.std.specs.Prelude.{◌≡◌, ◌≤◌, ◌<◌, ◌^◌, ◌↔◌, ℕ, List, true, false, length, slice_index_or, slice_set, vec_len, IfOk, OnOk, IfSome, IsTrue, Option, Some, None, if◌then◌else◌};
ghost use Rattle.zt_index.specs.Chains.{IsBehind, IsNext, IsShortOf, bucket_at};
ghost use Rattle.zt_index.specs.ProofsOnly.Chains.{IsAtOrBelow, IsBesides, IsChained, IsItemOf, IsPrevious, before_of, buckets, is_in, is_slot, next_of, no_ends, no_link};
ghost use Rattle.zt_index.specs.declared.chains.BucketEnds.{BucketEnds};

use crate::optional_number::OptionalNumber;
use std::alloc::{AllocError, Global};
use std::marker::Model;

/// The number of buckets. A history has at most 2^20 moments, so few items share a bucket by chance.
pub(crate) const BUCKETS: usize = 1 << 13;

/// The most items, so that the greatest of them is a number that a link can hold.
pub(crate) const MOST_ITEMS: u64 = u32::MAX as u64;

/// The link of an item: its bucket, and the items before and behind it there. If it is in no bucket, these are the
/// items beside which it stood. They are a hint of where it goes when it is put back, and nothing is promised of them.
#[derive(Clone, Copy, Debug)]
pub(crate) struct BucketLink {
    pub bucket: OptionalNumber,
    pub before: OptionalNumber,
    pub next: OptionalNumber,
}

/// The least and the greatest item of a bucket.
#[derive(Clone, Copy, Debug)]
pub(crate) struct BucketEnds {
    pub first: OptionalNumber,
    pub last: OptionalNumber,
}

impl BucketLink {
    /// The link of an item that was in no bucket yet.
    fn unlinked() -> BucketLink
        ensures { result ≡ no_link }
    {
        BucketLink {
            bucket: OptionalNumber::none(),
            before: OptionalNumber::none(),
            next: OptionalNumber::none(),
        }
    }
}

impl BucketEnds {
    /// The ends of a bucket without items.
    fn unlinked() -> BucketEnds
        ensures { result ≡ no_ends }
    {
        BucketEnds {
            first: OptionalNumber::none(),
            last: OptionalNumber::none(),
        }
    }
}

/// The items from 0 on, each in one bucket or in none. The items of a bucket are linked by rising number. So putting an
/// item into a bucket or taking it out never allocates.
#[derive(Drop)]
pub(crate) struct Chains {
    links: Vec<BucketLink>,
    ends: Vec<BucketEnds>,
}

impl Model for Chains {
    ghost use Rattle.std.specs.Prelude.{List, Option, ℕ};
    ghost use Rattle.zt_index.specs.ProofsOnly.Chains.{AreChains, buckets};

    ghost Value = { List (Option ℕ) };

    ghost view = { λ c. buckets c.links.items };

    ghost invariant = { λ c. AreChains c.links.items c.ends.items };
}

impl Chains {
    /// No items. Never allocates.
    pub fn new(alloc: Global) -> Chains
        ensures { length result ≡ 0 }
    {
        Chains {
            links: Vec::new(alloc),
            ends: Vec::new(alloc),
        }
    }

    /// How many items there are.
    pub fn len(&self) -> usize
        ensures { result ≡ length self.now }
    {
        self.links.len()
    }

    /// Adds items that are in no bucket, until there are so many. All others stay in their buckets.
    #[inline(always)]
    pub fn grow(&mut self, len: usize) -> Result<(), AllocError>
        requires few { len < 2 ^ 32 }
        ensures same { (n : ℕ) → bucket_at self.new n ≡ bucket_at self.old n }
        ensures longer { length self.old ≤ length self.new }
        ensures made { OnOk result (len ≤ length self.new) }
    {
        if len <= self.links.len() {
            return Ok(());
        }
        make_ends(&mut self.ends)?;
        make_links(&mut self.links, len)
    }

    /// Puts the item into the bucket, or into none. Never allocates. An item that is there already stays where it is.
    /// Putting an item back behind the one that it stood behind costs a few looks, and so does putting it in as the
    /// greatest. Any other item costs a look at each greater one of the bucket.
    #[inline(always)]
    pub fn set(&mut self, item: u64, bucket: Option<u64>)
        requires item { item < length self.old }
        requires bucket { IfSome bucket (λ b. b < 2 ^ 13) }
        ensures { self.new ≡ slice_set self.old item bucket }
    {
        place(&mut self.links, &mut self.ends, item, bucket);
    }

    /// Whether no item is in the bucket. It costs one look.
    #[inline(always)]
    pub fn is_empty_bucket(&self, bucket: u64) -> bool
        ensures { IsTrue result → (n : ℕ) → is_in self.now bucket n ≡ false }
    {
        is_empty_bucket(&self.links, &self.ends, bucket)
    }

    /// The least item of the bucket above `low`, or the least of all if `low` is `None`. Never allocates. It costs one
    /// look if `low` is in the bucket, or has just left it.
    pub fn after(&self, bucket: u64, low: Option<u64>) -> Option<u64>
        ensures { IsNext (is_in self.now bucket) low result }
    {
        after(&self.links, &self.ends, bucket, low)
    }

    /// Copies the items into memory of their own.
    pub fn copy(&self) -> Result<Chains, AllocError>
        ensures { IfOk result (λ copied. copied ≡ self.now) }
    {
        let links = Vec::from_slice(*self.links.allocator(), self.links.as_slice())?;
        let ends = Vec::from_slice(*self.ends.allocator(), self.ends.as_slice())?;
        Ok(Chains { links, ends })
    }
}

/// Makes the ends of all buckets, unless they are there.
#[inline(always)]
fn make_ends(ends: &mut Vec<BucketEnds>) -> Result<(), AllocError>
    ensures same { (k : ℕ) → slice_index_or ends.new.items k no_ends ≡ slice_index_or ends.old.items k no_ends }
    ensures longer { vec_len ends.old ≤ vec_len ends.new }
    ensures made { OnOk result (2 ^ 13 ≤ vec_len ends.new) }
{
    if ends.len() >= BUCKETS {
        return Ok(());
    }
    add_ends(ends)
}

/// Makes the ends of the buckets that have none.
#[inline(never)]
fn add_ends(ends: &mut Vec<BucketEnds>) -> Result<(), AllocError>
    requires { vec_len ends.old < 2 ^ 13 }
    ensures same { (k : ℕ) → slice_index_or ends.new.items k no_ends ≡ slice_index_or ends.old.items k no_ends }
    ensures longer { vec_len ends.old ≤ vec_len ends.new }
    ensures made { OnOk result (2 ^ 13 ≤ vec_len ends.new) }
{
    ends.resize(BUCKETS, BucketEnds::unlinked())
}

/// Adds items that are in no bucket, until there are so many.
#[inline(always)]
fn make_links(links: &mut Vec<BucketLink>, len: usize) -> Result<(), AllocError>
    requires { vec_len links.old ≤ len }
    ensures same { (k : ℕ) → slice_index_or links.new.items k no_link ≡ slice_index_or links.old.items k no_link }
    ensures longer { vec_len links.old ≤ vec_len links.new }
    ensures few { vec_len links.new ≤ len }
    ensures made { OnOk result (vec_len links.new ≡ len) }
{
    if len > links.capacity() {
        links.reserve(len - links.len())?;
    }
    while links.len() < len {
        links.push_reserved(BucketLink::unlinked());
    }
    Ok(())
}

/// Puts the item into the bucket, or into none. An item that is there already stays where it is.
#[inline(always)]
fn place(links: &mut [BucketLink], ends: &mut [BucketEnds], item: u64, bucket: Option<u64>)
    requires item { item < length links.old }
    requires bucket { IfSome bucket (λ b. b < 2 ^ 13) }
    requires few { length links.old < 2 ^ 32 }
    requires ended { 2 ^ 13 ≤ length ends.old }
    requires chained { IsChained links.old ends.old }
    ensures chained { IsChained links.new ends.new }
    ensures buckets { buckets links.new ≡ slice_set (buckets links.old) item bucket }
{
    let link = links[item as usize];
    if link.bucket.get() == bucket {
        return;
    }
    move_to(links, ends, item, bucket);
}

/// Takes the item out of its bucket, if it is in one. Then puts it into the given bucket, or into none.
#[inline(always)]
fn move_to(links: &mut [BucketLink], ends: &mut [BucketEnds], item: u64, bucket: Option<u64>)
    requires item { item < length links.old }
    requires bucket { IfSome bucket (λ b. b < 2 ^ 13) }
    requires few { length links.old < 2 ^ 32 }
    requires ended { 2 ^ 13 ≤ length ends.old }
    requires chained { IsChained links.old ends.old }
    ensures chained { IsChained links.new ends.new }
    ensures buckets { buckets links.new ≡ slice_set (buckets links.old) item bucket }
{
    remove(links, ends, item);
    if let Some(bucket) = bucket {
        remind(links, item);
        insert(links, ends, item, bucket);
    }
}

/// Whether no item is in the bucket.
#[inline(always)]
fn is_empty_bucket(links: &[BucketLink], ends: &[BucketEnds], bucket: u64) -> bool
    requires { IsChained links.now ends.now }
    ensures { IsTrue result → (n : ℕ) → is_in (buckets links.now) bucket n ≡ false }
{
    next_of(links, ends, bucket, None).is_none()
}

/// The least item of the bucket above `low`, or the least of all if `low` is `None`.
fn after(links: &[BucketLink], ends: &[BucketEnds], bucket: u64, low: Option<u64>) -> Option<u64>
    requires { IsChained links.now ends.now }
    ensures { IsNext (is_in (buckets links.now) bucket) low result }
{
    let mut found = beside(links, ends, bucket, low);
    'items: while let Some(item) = found {
        if is_behind(low, item) {
            return found;
        }
        found = next_of(links, ends, bucket, found);
    }
    None
}

/// The item at which a search for the least item above `low` begins.
fn beside(links: &[BucketLink], ends: &[BucketEnds], bucket: u64, low: Option<u64>) -> Option<u64>
    requires { IsChained links.now ends.now }
    ensures { IsBesides (is_in (buckets links.now) bucket) low result }
{
    next_of(links, ends, bucket, at_or_below(links, bucket, low))
}

/// `low` itself, if it is in the bucket. Else the item that it stood behind when it left its bucket, if that is in this
/// bucket. So the item behind one that has left is found by one look, too.
fn at_or_below(links: &[BucketLink], bucket: u64, low: Option<u64>) -> Option<u64>
    ensures { IsAtOrBelow (is_in (buckets links.now) bucket) low result }
{
    let item = low?;
    if is_in(links, bucket, item) {
        return Some(item);
    }
    let before = links.get(item as usize)?.before.get()?;
    if before < item && is_in(links, bucket, before) {
        Some(before)
    } else {
        None
    }
}

/// Whether the item is above `low`; `true` if `low` is `None`.
fn is_behind(low: Option<u64>, item: u64) -> bool
    ensures { IsTrue result ↔ IsBehind (λ a b. a < b) low item }
{
    match low {
        Some(low) => low < item,
        None => true,
    }
}

/// Whether the item is below the found one; `true` if none was found.
fn is_short_of(found: Option<u64>, item: u64) -> bool
    ensures { IsTrue result ↔ IsShortOf (λ a b. a < b) found item }
{
    match found {
        Some(found) => item < found,
        None => true,
    }
}

/// Whether the item is in the bucket; `true` if there is no item.
fn is_item_of(links: &[BucketLink], bucket: u64, item: Option<u64>) -> bool
    ensures { IsTrue result ↔ IsItemOf (is_in (buckets links.now) bucket) item }
{
    match item {
        Some(item) => is_in(links, bucket, item),
        None => true,
    }
}

/// Whether the item is in the bucket.
fn is_in(links: &[BucketLink], bucket: u64, item: u64) -> bool
    ensures { result ≡ is_in (buckets links.now) bucket item }
{
    match links.get(item as usize) {
        Some(link) => link.bucket.get() == Some(bucket),
        None => false,
    }
}

/// The item behind `low`, or the first of the bucket if `low` is `None`.
fn next_of(links: &[BucketLink], ends: &[BucketEnds], bucket: u64, low: Option<u64>) -> Option<u64>
    ensures { result ≡ next_of links.now ends.now bucket low }
{
    match low {
        Some(item) => links.get(item as usize)?.next.get(),
        None => ends.get(bucket as usize)?.first.get(),
    }
}

/// The item before `high`, or the last of the bucket if `high` is `None`.
fn before_of(
    links: &[BucketLink],
    ends: &[BucketEnds],
    bucket: u64,
    high: Option<u64>,
) -> Option<u64>
    ensures { result ≡ before_of links.now ends.now bucket high }
{
    match high {
        Some(item) => links.get(item as usize)?.before.get(),
        None => ends.get(bucket as usize)?.last.get(),
    }
}

/// Links the item as the next behind `low`, or as the first of the bucket if `low` is `None`.
fn set_next(
    links: &mut [BucketLink],
    ends: &mut [BucketEnds],
    bucket: u64,
    low: Option<u64>,
    item: OptionalNumber,
)
    requires low { IfSome low (λ n. n < length links.old) }
    requires bucket { bucket < length ends.old }
    ensures nexts { (b : ℕ) (l : Option ℕ)
        → next_of links.new ends.new b l ≡ (if is_slot bucket low b l then item else next_of links.old ends.old b l) }
    ensures befores { (b : ℕ) (h : Option ℕ) → before_of links.new ends.new b h ≡ before_of links.old ends.old b h }
    ensures buckets { buckets links.new ≡ buckets links.old }
    ensures links { length links.new ≡ length links.old }
    ensures ends { length ends.new ≡ length ends.old }
{
    match low {
        Some(low) => {
            let link = &mut links[low as usize];
            link.next = item;
        }
        None => {
            let end = &mut ends[bucket as usize];
            end.first = item;
        }
    }
}

/// Links the item as the one before `high`, or as the last of the bucket if `high` is `None`.
fn set_before(
    links: &mut [BucketLink],
    ends: &mut [BucketEnds],
    bucket: u64,
    high: Option<u64>,
    item: OptionalNumber,
)
    requires high { IfSome high (λ n. n < length links.old) }
    requires bucket { bucket < length ends.old }
    ensures nexts { (b : ℕ) (l : Option ℕ) → next_of links.new ends.new b l ≡ next_of links.old ends.old b l }
    ensures befores { (b : ℕ) (h : Option ℕ)
        → before_of links.new ends.new b h ≡ (if is_slot bucket high b h then item else before_of links.old ends.old b h) }
    ensures buckets { buckets links.new ≡ buckets links.old }
    ensures links { length links.new ≡ length links.old }
    ensures ends { length ends.new ≡ length ends.old }
{
    match high {
        Some(high) => {
            let link = &mut links[high as usize];
            link.before = item;
        }
        None => {
            let end = &mut ends[bucket as usize];
            end.last = item;
        }
    }
}

/// Takes the item out of its bucket. Its link keeps the items beside which it stood.
fn remove(links: &mut [BucketLink], ends: &mut [BucketEnds], item: u64)
    requires item { item < length links.old }
    requires chained { IsChained links.old ends.old }
    ensures chained { IsChained links.new ends.new }
    ensures buckets { buckets links.new ≡ slice_set (buckets links.old) item None }
    ensures ends { length ends.new ≡ length ends.old }
{
    let link = links[item as usize];
    let Some(bucket) = link.bucket.get() else {
        return;
    };
    set_next(links, ends, bucket, link.before.get(), link.next);
    set_before(links, ends, bucket, link.next.get(), link.before);
    links[item as usize] = BucketLink {
        bucket: OptionalNumber::none(),
        before: link.before,
        next: link.next,
    };
}

/// If the item that stood behind this one is in no bucket, notes in its link that it stood behind this one last. So
/// when several neighbours leave a bucket and come back by rising number, each is put back behind the one before it.
fn remind(links: &mut [BucketLink], item: u64)
    requires item { item < length links.old }
    requires few { length links.old < 2 ^ 32 }
    ensures chained { (ends : List BucketEnds) → IsChained links.old ends → IsChained links.new ends }
    ensures buckets { buckets links.new ≡ buckets links.old }
{
    let Some(behind) = links[item as usize].next.get() else {
        return;
    };
    let behind = behind as usize;
    if behind < links.len() && links[behind].bucket.get().is_none() {
        let link = &mut links[behind];
        link.before = OptionalNumber::some(item);
    }
}

/// Puts the item, which is in no bucket, into the bucket.
fn insert(links: &mut [BucketLink], ends: &mut [BucketEnds], item: u64, bucket: u64)
    requires item { item < length links.old }
    requires bucket { bucket < 2 ^ 13 }
    requires few { length links.old < 2 ^ 32 }
    requires ended { 2 ^ 13 ≤ length ends.old }
    requires free { bucket_at (buckets links.old) item ≡ None }
    requires chained { IsChained links.old ends.old }
    ensures chained { IsChained links.new ends.new }
    ensures buckets { buckets links.new ≡ slice_set (buckets links.old) item (Some bucket) }
{
    let (before, next) = around(links, ends, bucket, item);
    let number = OptionalNumber::some(item);
    links[item as usize] = BucketLink {
        bucket: OptionalNumber::some(bucket),
        before: OptionalNumber::of(before),
        next: OptionalNumber::of(next),
    };
    set_next(links, ends, bucket, before, number);
    set_before(links, ends, bucket, next, number);
}

/// The greatest item of the bucket below this one, and the least above it.
fn around(
    links: &[BucketLink],
    ends: &[BucketEnds],
    bucket: u64,
    item: u64,
) -> (Option<u64>, Option<u64>)
    requires free { is_in (buckets links.now) bucket item ≡ false }
    requires chained { IsChained links.now ends.now }
    ensures before { IsPrevious (is_in (buckets links.now) bucket) (Some item) result.0 }
    ensures next { IsNext (is_in (buckets links.now) bucket) (Some item) result.1 }
{
    match hinted(links, ends, bucket, item) {
        Some(beside) => beside,
        None => searched(links, ends, bucket, item),
    }
}

/// The greatest item of the bucket below this one and the least above it, if this item goes behind the one that it stood behind.
/// That one is then in the bucket, or there was none, and the next one there is above this item. It costs a few looks.
fn hinted(
    links: &[BucketLink],
    ends: &[BucketEnds],
    bucket: u64,
    item: u64,
) -> Option<(Option<u64>, Option<u64>)>
    requires { IsChained links.now ends.now }
    ensures before { IfSome result (λ beside. IsPrevious (is_in (buckets links.now) bucket) (Some item) beside.0) }
    ensures next { IfSome result (λ beside. IsNext (is_in (buckets links.now) bucket) (Some item) beside.1) }
{
    let before = links.get(item as usize)?.before.get();
    if !is_item_of(links, bucket, before) || !is_behind(before, item) {
        return None;
    }
    let next = next_of(links, ends, bucket, before);
    if is_short_of(next, item) {
        Some((before, next))
    } else {
        None
    }
}

/// The greatest item of the bucket below this one and the least above it, by a walk from the greatest item downwards.
fn searched(
    links: &[BucketLink],
    ends: &[BucketEnds],
    bucket: u64,
    item: u64,
) -> (Option<u64>, Option<u64>)
    requires free { is_in (buckets links.now) bucket item ≡ false }
    requires chained { IsChained links.now ends.now }
    ensures before { IsPrevious (is_in (buckets links.now) bucket) (Some item) result.0 }
    ensures next { IsNext (is_in (buckets links.now) bucket) (Some item) result.1 }
{
    let mut next = None;
    let mut before = before_of(links, ends, bucket, None);
    'items: while let Some(found) = before {
        if found < item {
            break;
        }
        next = before;
        before = before_of(links, ends, bucket, before);
    }
    (before, next)
}
