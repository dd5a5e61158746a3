//! Exchanges the rows of records and of steps with those of a store.

ghost use Rattle.std.specs.Prelude.{◌≡◌, ◌<◌, [], ◌∷◌, ◌++◌, true, List, length, map};
ghost use Rattle.std.specs.List.{IsDistinct};
ghost use Rattle.zt_rows.specs.Change.{exchange};
ghost use Rattle.zt_rows.specs.Keys.{rowkey_eq};
ghost use Rattle.zt_rows.specs.Path.{end_of, exchange_back, records_of};
ghost use Rattle.zt_rows.specs.Room.{SuitsKey};
ghost use Rattle.zt_rows.specs.State.{State, put, row};
ghost use Rattle.zt_cells.specs.RowSlots.{decode_slot};
ghost use Rattle.zt_store.specs.Places.{fits, fits_row};
ghost use Rattle.zt_store.specs.RecordRows.{all_fit};
ghost use Rattle.zt_store.specs.ProofsOnly.KeptRows.{keys_in, rows_in, rows_of, pairs_of};
ghost use Rattle.zt_store.specs.ProofsOnly.RecordRows.{IsSlotRecord};
ghost use Rattle.zt_store.specs.ProofsOnly.StoreView.{AllSuit, standing};

use crate::before_images::BeforeImages;
use crate::kept_rows::{KeptRows, RowBlock, RowLists};
use crate::record::Record;
use crate::store::Store;
use zt_rows::{Row, RowKey};

/// Exchanges the record's rows with the store's. The store then has the record's rows, and the record has what the
/// store had under the same keys. Never allocates.
pub fn swap(store: &mut Store, kept: &mut Record)
    requires { fits store.old.places kept.old ≡ true }
    ensures exchanged { (store.new.state, kept.new) ≡ exchange store.old.state kept.old }
    ensures places { store.new.places ≡ store.old.places }
    ensures fits { fits store.new.places kept.new ≡ true }
{
    exchange_kept(store, &mut kept.rows);
}

/// Exchanges the rows with the store's, in whichever form they are kept. Never allocates.
fn exchange_kept(store: &mut Store, kept: &mut KeptRows)
    requires recorded { IsSlotRecord (keys_in kept.old) (rows_in kept.old) }
    requires placed { fits store.old.places (pairs_of (keys_in kept.old) (rows_in kept.old)) ≡ true }
    ensures exchanged { (store.new.state, pairs_of (keys_in kept.new) (rows_in kept.new)) ≡ exchange store.old.state (pairs_of (keys_in kept.old) (rows_in kept.old)) }
    ensures recorded { IsSlotRecord (keys_in kept.new) (rows_in kept.new) }
    ensures places { store.new.places ≡ store.old.places }
    ensures fits { fits store.new.places (pairs_of (keys_in kept.new) (rows_in kept.new)) ≡ true }
{
    match kept {
        KeptRows::NoRow => {}
        KeptRows::One(block) => exchange_block(store, block),
        KeptRows::Two(block) => exchange_block(store, block),
        KeptRows::Three(block) => exchange_block(store, block),
        KeptRows::Four(block) => exchange_block(store, block),
        KeptRows::Five(block) => exchange_block(store, block),
        KeptRows::Six(block) => exchange_block(store, block),
        KeptRows::Many(lists) => exchange_lists(store, lists),
    }
}

/// Exchanges the block's rows with the store's. Never allocates.
fn exchange_block<const N: usize>(store: &mut Store, block: &mut RowBlock<N>)
    requires recorded { IsSlotRecord block.old.keys block.old.rows }
    requires placed { fits store.old.places (pairs_of block.old.keys block.old.rows) ≡ true }
    ensures exchanged { (store.new.state, pairs_of block.new.keys block.new.rows) ≡ exchange store.old.state (pairs_of block.old.keys block.old.rows) }
    ensures recorded { IsSlotRecord block.new.keys block.new.rows }
    ensures places { store.new.places ≡ store.old.places }
    ensures fits { fits store.new.places (pairs_of block.new.keys block.new.rows) ≡ true }
{
    exchange_under(store, &block.keys, &mut block.rows);
}

/// Exchanges the rows of the lists with the store's. Never allocates.
fn exchange_lists(store: &mut Store, lists: &mut RowLists)
    requires recorded { IsSlotRecord lists.old.keys.items lists.old.rows.items }
    requires placed { fits store.old.places (pairs_of lists.old.keys.items lists.old.rows.items) ≡ true }
    ensures exchanged { (store.new.state, pairs_of lists.new.keys.items lists.new.rows.items) ≡ exchange store.old.state (pairs_of lists.old.keys.items lists.old.rows.items) }
    ensures recorded { IsSlotRecord lists.new.keys.items lists.new.rows.items }
    ensures places { store.new.places ≡ store.old.places }
    ensures fits { fits store.new.places (pairs_of lists.new.keys.items lists.new.rows.items) ≡ true }
{
    exchange_under(store, lists.keys.as_slice(), lists.rows.as_mut_slice());
}

/// Exchanges the slots with the store's, each under the key at its place. Never allocates.
fn exchange_under(store: &mut Store, keys: &[RowKey], rows: &mut [Row])
    requires recorded { IsSlotRecord keys.now rows.old }
    requires placed { fits store.old.places (pairs_of keys.now rows.old) ≡ true }
    ensures exchanged { (store.new.state, pairs_of keys.now rows.new) ≡ exchange store.old.state (pairs_of keys.now rows.old) }
    ensures recorded { IsSlotRecord keys.now rows.new }
    ensures places { store.new.places ≡ store.old.places }
    ensures fits { fits store.new.places (pairs_of keys.now rows.new) ≡ true }
{
    exchange_each(store, keys, rows);
}

/// Exchanges a step's before-images with the store's under their keys. Never allocates.
pub(crate) fn exchange_rows(store: &mut Store, firsts: &mut BeforeImages)
    requires distinct { IsDistinct rowkey_eq (map (λ e. e.0) (rows_of firsts.old.rows)) }
    requires suited { AllSuit (rows_of firsts.old.rows) }
    requires placed { fits store.old.places (rows_of firsts.old.rows) ≡ true }
    ensures exchanged { (store.new.state, rows_of firsts.new.rows) ≡ exchange store.old.state (rows_of firsts.old.rows) }
    ensures places { store.new.places ≡ store.old.places }
    ensures suited { AllSuit (rows_of firsts.new.rows) }
    ensures fits { fits store.new.places (rows_of firsts.new.rows) ≡ true }
{
    exchange_each(store, firsts.keys.as_slice(), firsts.rows.as_mut_slice());
}

/// Puts the slot under the key. What stood there goes behind the before-images. Never allocates.
#[inline(always)]
pub(crate) fn exchange_behind(store: &mut Store, firsts: &mut BeforeImages, key: &RowKey, slot: Row)
    requires room { length firsts.old.rows < firsts.old.room }
    requires placed { fits_row store.old.places key.now (decode_slot key.now slot) ≡ true }
    requires suited { SuitsKey key.now (decode_slot key.now slot) }
    ensures put { store.new ≡ standing store.old (put store.old.state key.now (decode_slot key.now slot)) }
    ensures behind { rows_of firsts.new.rows ≡ rows_of firsts.old.rows ++ (key.now, row store.old.state key.now) ∷ [] }
    ensures fit { fits_row store.new.places key.now (row store.old.state key.now) ≡ true }
    ensures suited { SuitsKey key.now (row store.old.state key.now) }
{
    let place = firsts.rows.len();
    firsts.keys.push_reserved(*key);
    firsts.rows.push_reserved(slot);
    store.exchange(key, &mut firsts.rows[place]);
}

/// Exchanges the slots with the store's, each under the key at its place. Each key is listed once. Never allocates.
fn exchange_each(store: &mut Store, keys: &[RowKey], rows: &mut [Row])
    requires even { length rows.old ≡ length keys.now }
    requires distinct { IsDistinct rowkey_eq (map (λ e. e.0) (pairs_of keys.now rows.old)) }
    requires suited { AllSuit (pairs_of keys.now rows.old) }
    requires placed { fits store.old.places (pairs_of keys.now rows.old) ≡ true }
    ensures exchanged { (store.new.state, pairs_of keys.now rows.new) ≡ exchange store.old.state (pairs_of keys.now rows.old) }
    ensures places { store.new.places ≡ store.old.places }
    ensures even { length rows.new ≡ length keys.now }
    ensures suited { AllSuit (pairs_of keys.now rows.new) }
    ensures fits { fits store.new.places (pairs_of keys.now rows.new) ≡ true }
{
    for place in 0..rows.len() {
        store.exchange(&keys[place], &mut rows[place]);
    }
}

/// Exchanges the rows of the records with the store's, from the last record to the first. If the records are those of a
/// path to the store's state, this restores the state at the beginning of the path. Never allocates.
pub fn undo(store: &mut Store, records: &mut [Record])
    requires { all_fit store.old.places records.old ≡ true }
    ensures exchanged { (store.new.state, records.new) ≡ exchange_back store.old.state records.old }
    ensures restores { (s : State) (path : List State)
        → store.old.state ≡ end_of s path
        → records.old ≡ records_of s path
        → store.new.state ≡ s }
    ensures places { store.new.places ≡ store.old.places }
    ensures fit { all_fit store.new.places records.new ≡ true }
{
    let mut left = records.len();
    while left > 0 {
        left -= 1;
        swap(store, &mut records[left]);
    }
}
