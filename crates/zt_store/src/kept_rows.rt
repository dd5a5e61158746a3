//! The keys and rows of an undo record: a block of memory for up to six, or two lists.

ghost use Rattle.std.specs.Prelude.{◌≡◌, ◌≤◌, [], length, vec_capacity, IfOk, OnOk, OnErr};
ghost use Rattle.zt_store.specs.ProofsOnly.ChangedRows.{IsOrder, picked};
ghost use Rattle.zt_store.specs.ProofsOnly.KeptRows.{AreOf, keys_in, rows_in, room_of};

use crate::before_images::BeforeImages;
use std::alloc::{AllocError, Global};
use std::array;
use std::mem::{forget, replace};
use zt_cells::NO_ROW;
use zt_rows::{Row, RowKey};

/// From this many rows on, a record takes the memory in which its step listed them. For fewer rows, the next step has
/// more use for it.
const MANY: usize = 512;

/// Some keys and as many slots in one block of memory of just their size.
#[derive(Drop)]
pub(crate) struct RowBlock<const N: usize> {
    pub(crate) keys: [RowKey; N],
    pub(crate) rows: [Row; N],
}

/// Any number of keys, and as many slots.
#[derive(Drop)]
pub(crate) struct RowLists {
    pub(crate) keys: Vec<RowKey>,
    pub(crate) rows: Vec<Row>,
}

/// Some keys and as many slots, behind one pointer. `Many` also has those of fewer rows, if the allocation of their
/// block failed.
#[derive(Drop)]
pub(crate) enum KeptRows {
    NoRow,
    One(Box<RowBlock<1>>),
    Two(Box<RowBlock<2>>),
    Three(Box<RowBlock<3>>),
    Four(Box<RowBlock<4>>),
    Five(Box<RowBlock<5>>),
    Six(Box<RowBlock<6>>),
    Many(Box<RowLists>),
}

impl KeptRows {
    /// Takes the rows at these places, in this order and with copies of their keys, into memory of just their size.
    /// Fewer than `MANY` rows get fresh memory. More rows take over the lists in which they stand, and the other rows
    /// are dropped. If an allocation fails, nothing changes.
    pub fn take(
        alloc: Global,
        firsts: &mut BeforeImages,
        order: &[usize],
    ) -> Result<KeptRows, AllocError>
        requires { IsOrder order.now (length firsts.old.rows) }
        ensures ok { IfOk result (λ kept. AreOf (keys_in kept) (rows_in kept) (picked firsts.old.rows order.now)) }
        ensures err { OnErr result (firsts.new ≡ firsts.old) }
    {
        Ok(match order.len() {
            0 => KeptRows::NoRow,
            1 => KeptRows::One(RowBlock::take(alloc, firsts, order)?),
            2 => KeptRows::Two(RowBlock::take(alloc, firsts, order)?),
            3 => KeptRows::Three(RowBlock::take(alloc, firsts, order)?),
            4 => KeptRows::Four(RowBlock::take(alloc, firsts, order)?),
            5 => KeptRows::Five(RowBlock::take(alloc, firsts, order)?),
            6 => KeptRows::Six(RowBlock::take(alloc, firsts, order)?),
            _ => KeptRows::Many(take_many(alloc, firsts, order)?),
        })
    }

    /// The keys.
    pub fn keys(&self) -> &[RowKey]
        ensures { result.now ≡ keys_in self.now }
    {
        let (keys, _rows) = self.keys_and_rows();
        keys
    }

    /// The keys, and the slot at the place of each.
    #[inline(always)]
    pub fn keys_and_rows(&self) -> (&[RowKey], &[Row])
        ensures keys { result.0.now ≡ keys_in self.now }
        ensures rows { result.1.now ≡ rows_in self.now }
    {
        match self {
            KeptRows::NoRow => (&[], &[]),
            KeptRows::One(block) => (&block.keys, &block.rows),
            KeptRows::Two(block) => (&block.keys, &block.rows),
            KeptRows::Three(block) => (&block.keys, &block.rows),
            KeptRows::Four(block) => (&block.keys, &block.rows),
            KeptRows::Five(block) => (&block.keys, &block.rows),
            KeptRows::Six(block) => (&block.keys, &block.rows),
            KeptRows::Many(lists) => (lists.keys.as_slice(), lists.rows.as_slice()),
        }
    }

    /// The slots, each at the place of its key.
    pub fn rows(&self) -> &[Row]
        ensures { result.now ≡ rows_in self.now }
    {
        let (_keys, rows) = self.keys_and_rows();
        rows
    }
}

/// Takes the rows at these places, in this order and with copies of their keys, into two lists. If an allocation fails,
/// nothing changes.
fn take_many(
    alloc: Global,
    firsts: &mut BeforeImages,
    order: &[usize],
) -> Result<Box<RowLists>, AllocError>
    requires { IsOrder order.now (length firsts.old.rows) }
    ensures ok { IfOk result (λ lists. AreOf lists.value.keys.items lists.value.rows.items (picked firsts.old.rows order.now)) }
    ensures err { OnErr result (firsts.new ≡ firsts.old) }
{
    let count = order.len();
    if count >= MANY {
        if let Ok(lists) = firsts.give_memory(alloc, order) {
            return Ok(lists);
        }
    }
    let mut lists = RowLists::with_room(alloc, count)?;
    lists.take(firsts, order);
    Ok(lists)
}

impl<const N: usize> RowBlock<N> {
    /// Takes the rows at these places, in this order and with copies of their keys, into a new block. If an allocation
    /// fails, nothing changes.
    fn take(
        alloc: Global,
        firsts: &mut BeforeImages,
        order: &[usize],
    ) -> Result<Box<RowBlock<N>>, AllocError>
        requires order { IsOrder order.now (length firsts.old.rows) }
        requires count { length order.now ≡ N }
        ensures ok { IfOk result (λ block. AreOf block.value.keys block.value.rows (picked firsts.old.rows order.now)) }
        ensures err { OnErr result (firsts.new ≡ firsts.old) }
    {
        let empty = RowBlock {
            keys: [RowKey::Counters; N],
            rows: array::from_fn(|_| NO_ROW),
        };
        let mut block = Box::new(alloc, empty)?;
        let places = block.as_mut();
        take_into(&mut places.keys, &mut places.rows, firsts, order);
        Ok(block)
    }
}

/// Takes the rows at these places, in this order and with copies of their keys, into as many places without rows.
#[inline(always)]
fn take_into(keys: &mut [RowKey], rows: &mut [Row], firsts: &mut BeforeImages, order: &[usize])
    requires order { IsOrder order.now (length firsts.old.rows) }
    requires keys { length keys.old ≡ length order.now }
    requires rows { length rows.old ≡ length order.now }
    ensures { AreOf keys.new rows.new (picked firsts.old.rows order.now) }
{
    for place in 0..order.len() {
        let mut row = NO_ROW;
        keys[place] = firsts.exchange(order[place], &mut row);
        // The row that stood there owns no memory, so it is not dropped.
        forget(replace(&mut rows[place], row));
    }
}

impl RowLists {
    /// Empty lists with room for so many rows.
    pub fn with_room(alloc: Global, count: usize) -> Result<Box<RowLists>, AllocError>
        ensures { IfOk result (λ lists. count ≤ room_of lists.value) }
    {
        let lists = RowLists {
            keys: Vec::with_capacity(alloc, count)?,
            rows: Vec::with_capacity(alloc, count)?,
        };
        Ok(Box::new(alloc, lists)?)
    }

    /// Empty lists without memory for rows.
    pub fn empty(alloc: Global) -> Result<Box<RowLists>, AllocError>
        ensures keys { IfOk result (λ lists. lists.value.keys.items ≡ []) }
        ensures rows { IfOk result (λ lists. lists.value.rows.items ≡ []) }
    {
        let lists = RowLists {
            keys: Vec::new(alloc),
            rows: Vec::new(alloc),
        };
        Ok(Box::new(alloc, lists)?)
    }

    /// How many rows there is room for.
    pub fn room(&self) -> usize
        ensures { result ≡ room_of self.now }
    {
        self.keys.capacity().min(self.rows.capacity())
    }

    /// Makes room for so many rows in empty lists. If an allocation fails, the room that was there stays.
    pub fn grow_to(&mut self, count: usize) -> Result<(), AllocError>
        ensures ok { OnOk result (count ≤ room_of self.new) }
        ensures kept { room_of self.old ≤ room_of self.new }
    {
        self.keys.reserve(count)?;
        self.rows.reserve(count)?;
        Ok(())
    }

    /// Takes the rows at these places, in this order and with copies of their keys, and gives back the room for more.
    /// It cannot fail: without a smaller block, a list keeps the one that it has.
    pub fn take(&mut self, firsts: &mut BeforeImages, order: &[usize])
        requires order { IsOrder order.now (length firsts.old.rows) }
        requires room { length order.now ≤ room_of self.old }
        ensures { AreOf self.new.keys.items self.new.rows.items (picked firsts.old.rows order.now) }
    {
        push_rows(&mut self.keys, &mut self.rows, firsts, order);
        self.keys.shrink_to_fit();
        self.rows.shrink_to_fit();
    }
}

/// Leaves in the lists just the rows at these places, in this order, and their keys.
fn push_rows(
    keys: &mut Vec<RowKey>,
    rows: &mut Vec<Row>,
    firsts: &mut BeforeImages,
    order: &[usize],
)
    requires order { IsOrder order.now (length firsts.old.rows) }
    requires keys { length order.now ≤ vec_capacity keys.old }
    requires rows { length order.now ≤ vec_capacity rows.old }
    ensures { AreOf keys.new.items rows.new.items (picked firsts.old.rows order.now) }
{
    keys.clear();
    rows.clear();
    for place in 0..order.len() {
        let mut row = NO_ROW;
        let key = firsts.exchange(order[place], &mut row);
        keys.push_reserved(key);
        rows.push_reserved(row);
    }
}
