//! The cells of a store: looks at the rows of a state, the exchange of one row, and the places for rows.
#![tactic(auto)]

mod cells;
mod limits;
mod row_slots;

pub use cells::Cells;
pub use limits::MOST_PLACES;
pub use row_slots::{NO_ROW, decode_slot, encode_slot};
