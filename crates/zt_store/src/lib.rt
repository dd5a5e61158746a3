//! The store: the rows of one state in memory, steps that change it, and undo records that take a step back or forth.
#![tactic(auto)]

mod arranged_rows;
mod before_images;
mod changed_rows;
mod exchanged_rows;
mod kept_rows;
mod key_columns;
mod record;
mod step;
mod store;
mod touched_index;

pub use exchanged_rows::{swap, undo};
pub use record::{Record, RecordRows};
pub use step::Step;
pub use store::Store;
