//! Finds the place of a key among those that a step put: few keys one by one, many by hash buckets.

ghost use Rattle.std.specs.Prelude.{◌≡◌, ◌<◌, ◌≤◌, ◌+◌, ◌-◌, ◌^◌, [], ◌∷◌, ◌++◌, List, Some, length, slice_get, OnOk, OnErr};
ghost use Rattle.zt_rows.specs.Keys.{variant, first_number, rowkey_eq, second_number};
ghost use Rattle.zt_rows.specs.declared.keys.RowKey.{RowKey};
ghost use Rattle.zt_store.specs.ProofsOnly.TouchedIndex.{AreChained, AreNoted, IsChainedTo, bucket_of, mixed_of};
ghost use Rattle.zt_store.specs.ProofsOnly.StepRows.{IsPlaceOf};

use std::alloc::{AllocError, Global};
use zt_rows::RowKey;

/// Up to this many keys are compared one by one. If more come, all are put into hash buckets.
const FEW: usize = 8;

/// The number of buckets at first.
const FIRST_BUCKETS: usize = 32;

/// The most keys, so that the number of each is one that a chain can hold.
const MOST_KEYS: usize = u32::MAX as usize;

/// The factor of a key's first number: consecutive numbers stay consecutive in the upper half of the product.
const FIRST_FACTOR: u64 = 0x1_0000_0000;

/// The factor of a key's second number. It and `VARIANT_FACTOR`, that of the variant, are odd numbers without a pattern.
const SECOND_FACTOR: u64 = 0xc2b2ae3d27d4eb4f;

const VARIANT_FACTOR: u64 = 0x165667b19e3779f9;

/// The link from a key to the one before it in its bucket.
#[derive(Clone, Copy, Debug)]
struct KeyLink {
    /// The hash of the key. It tells most other keys from this one without a look at the key.
    mixed: u32,
    /// The number of the key before it, or 0.
    before: u32,
}

/// The link of no key.
const NO_LINK: KeyLink = KeyLink {
    mixed: 0,
    before: 0,
};

/// Finds the places of a list's keys. The keys themselves stand in the list, and each call is given the list. While
/// they are few, nothing is kept. More keys are put into hash buckets, and those of a bucket are chained from the last
/// one back to the first. A chain has the numbers of keys in the list, counted from 1, and ends with 0.
#[derive(Drop)]
pub(crate) struct TouchedIndex {
    /// The number of the last key of each bucket, or 0.
    last: Vec<u32>,
    /// The link of each key.
    links: Vec<KeyLink>,
}

impl TouchedIndex {
    /// The places of no keys. Never allocates.
    pub(crate) fn new(alloc: Global) -> TouchedIndex
        ensures last { result.last.items ≡ [] }
        ensures links { result.links.items ≡ [] }
    {
        TouchedIndex {
            last: Vec::new(alloc),
            links: Vec::new(alloc),
        }
    }

    /// The place of the key in the list, if it is there. Never allocates.
    #[inline(always)]
    pub(crate) fn place(&self, keys: &[RowKey], key: &RowKey) -> Option<usize>
        requires { AreNoted self.now keys.now }
        ensures { IsPlaceOf keys.now key.now result }
    {
        if self.last.is_empty() {
            place_among(keys, key)
        } else {
            chained_place(self.last.as_slice(), self.links.as_slice(), keys, key)
        }
    }

    /// Notes that the key will stand behind those of the list. Fails if an allocation fails, and beyond 2^32 - 1 keys.
    /// The keys of the list are then still found.
    #[inline(always)]
    pub(crate) fn note(&mut self, keys: &[RowKey], key: &RowKey) -> Result<(), AllocError>
        requires { AreNoted self.old keys.now }
        ensures ok { OnOk result (AreNoted self.new (keys.now ++ key.now ∷ [])) }
        ensures err { OnErr result (AreNoted self.new keys.now) }
    {
        if self.last.is_empty() && keys.len() < FEW {
            return Ok(());
        }
        self.note_chained(keys, key)
    }

    /// Notes the key when there are buckets, or when enough keys stand before it for buckets to be made.
    #[inline(never)]
    fn note_chained(&mut self, keys: &[RowKey], key: &RowKey) -> Result<(), AllocError>
        requires { AreNoted self.old keys.now }
        ensures ok { OnOk result (AreNoted self.new (keys.now ++ key.now ∷ [])) }
        ensures err { OnErr result (AreNoted self.new keys.now) }
    {
        if keys.len() >= MOST_KEYS {
            return Err(AllocError);
        }
        self.make_buckets(keys)?;
        self.links.push(NO_LINK)?;
        chain(
            self.last.as_mut_slice(),
            self.links.as_mut_slice(),
            keys.len(),
            key,
        );
        Ok(())
    }

    /// Makes more buckets, if there are no more buckets than keys.
    fn make_buckets(&mut self, keys: &[RowKey]) -> Result<(), AllocError>
        requires noted { AreNoted self.old keys.now }
        requires few { length keys.now < 2 ^ 32 - 1 }
        ensures some { OnOk result (0 < length self.new.last.items) }
        ensures ok { OnOk result (AreChained self.new.last.items self.new.links.items keys.now) }
        ensures err { OnErr result (AreNoted self.new keys.now) }
    {
        if keys.len() < self.last.len() {
            return Ok(());
        }
        self.double_buckets(keys)
    }

    /// Makes twice as many buckets, and puts all keys into them.
    fn double_buckets(&mut self, keys: &[RowKey]) -> Result<(), AllocError>
        requires noted { AreNoted self.old keys.now }
        requires few { length keys.now < 2 ^ 32 - 1 }
        requires full { length self.old.last.items ≤ length keys.now }
        ensures some { OnOk result (0 < length self.new.last.items) }
        ensures ok { OnOk result (AreChained self.new.last.items self.new.links.items keys.now) }
        ensures err { OnErr result (AreNoted self.new keys.now) }
    {
        let buckets = (2 * self.last.len()).max(FIRST_BUCKETS);
        self.links.resize(keys.len(), NO_LINK)?;
        self.last.resize(buckets, 0)?;
        chain_all(self.last.as_mut_slice(), self.links.as_mut_slice(), keys);
        Ok(())
    }

    /// Forgets all keys, and leaves the memory to later ones. Never allocates.
    pub(crate) fn clear(&mut self)
        ensures last { self.new.last.items ≡ [] }
        ensures links { self.new.links.items ≡ [] }
    {
        self.last.clear();
        self.links.clear();
    }
}

/// The place of the key, by a look at each key.
fn place_among(keys: &[RowKey], key: &RowKey) -> Option<usize>
    ensures { IsPlaceOf keys.now key.now result }
{
    for place in 0..keys.len() {
        if *key == keys[place] {
            return Some(place);
        }
    }
    None
}

/// The place of the key, by a look at the keys of its bucket.
#[inline(never)]
fn chained_place(last: &[u32], links: &[KeyLink], keys: &[RowKey], key: &RowKey) -> Option<usize>
    requires some { 0 < length last.now }
    requires chained { AreChained last.now links.now keys.now }
    ensures { IsPlaceOf keys.now key.now result }
{
    let mixed = mixed(key);
    let mut number = last[bucket(mixed, last.len())] as usize;
    'chain: while number > 0 {
        let place = number - 1;
        let link = links[place];
        if is_same(link, &keys[place], mixed, key) {
            return Some(place);
        }
        number = link.before as usize;
    }
    None
}

/// Whether the key of the link is this one.
#[inline(always)]
fn is_same(link: KeyLink, first: &RowKey, mixed: u32, key: &RowKey) -> bool
    requires link { link.mixed ≡ mixed_of first.now }
    requires mixed { mixed ≡ mixed_of key.now }
    ensures { result ≡ rowkey_eq first.now key.now }
{
    link.mixed == mixed && *first == *key
}

/// Chains the keys of the list, and no others.
fn chain_all(last: &mut [u32], links: &mut [KeyLink], keys: &[RowKey])
    requires some { 0 < length last.old }
    requires room { length keys.now ≤ length links.old }
    requires few { length keys.now < 2 ^ 32 - 1 }
    ensures { IsChainedTo (length last.new) last.new links.new keys.now (length keys.now) }
{
    last.fill(0);
    for place in 0..keys.len() {
        chain(last, links, place, &keys[place]);
    }
}

/// Chains the key at the place. The keys before it are chained already.
#[inline(always)]
fn chain(last: &mut [u32], links: &mut [KeyLink], place: usize, key: &RowKey)
    requires some { 0 < length last.old }
    requires place { place < length links.old }
    requires few { place < 2 ^ 32 - 1 }
    ensures { (keys : List RowKey) → slice_get keys place ≡ Some key.now
        → IsChainedTo (length last.old) last.old links.old keys place → IsChainedTo (length last.new) last.new links.new keys (place + 1) }
{
    let mixed = mixed(key);
    let bucket = bucket(mixed, last.len());
    links[place] = KeyLink {
        mixed,
        before: last[bucket],
    };
    last[bucket] = (place + 1) as u32;
}

/// The bucket of a key with this hash.
#[inline(always)]
fn bucket(mixed: u32, buckets: usize) -> usize
    requires { 0 < buckets }
    ensures bucket { (key : RowKey) → mixed ≡ mixed_of key → result ≡ bucket_of buckets key }
    ensures below { result < buckets }
{
    mixed as usize & (buckets - 1)
}

/// A hash of the key, from its variant and numbers. Keys with consecutive first numbers, as those of objects that were
/// made one after another, come into consecutive buckets. These are near each other in memory, and a call that ends
/// many things goes through them in this order. All other keys are spread.
#[inline(always)]
fn mixed(key: &RowKey) -> u32
    ensures { result ≡ mixed_of key.now }
{
    let (variant, first, second) = parts(key);
    let numbers = first
        .wrapping_mul(FIRST_FACTOR)
        .wrapping_add(second.wrapping_mul(SECOND_FACTOR));
    (numbers.wrapping_add(variant.wrapping_mul(VARIANT_FACTOR)) >> 32) as u32
}

/// The number of the key's variant, and its two numbers, 0 for a number that it does not have.
#[inline(always)]
pub(crate) fn parts(key: &RowKey) -> (u64, u64, u64)
    ensures variant { result.0 ≡ variant key.now }
    ensures first { result.1 ≡ first_number key.now }
    ensures second { result.2 ≡ second_number key.now }
{
    match *key {
        RowKey::Counters => (0, 0, 0),
        RowKey::Object(koid) => (1, koid.0, 0),
        RowKey::Entry(process, handle) => (2, process.0, u64::from(handle.0)),
        RowKey::Msg(endpoint, number) => (3, endpoint.0, number),
        RowKey::Packet(port, number) => (4, port.0, number),
        RowKey::Wait(number) => (5, number, 0),
    }
}
