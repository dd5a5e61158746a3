//! Queries: who holds an object, what is leaked, and at which moment of a path something happened to an object.
#![tactic(auto)]

mod frozen;
mod happening_times;
pub mod laws;
mod leak_graph;
mod path_pair;
mod row_list;
mod shown_rows;
mod support_list;

pub use frozen::Frozen;
pub use happening_times::{ended, made, peer_closed};
pub use leak_graph::first_leak::leaked_since;
pub use leak_graph::leak_list::{leaks, leaks_at};
pub use shown_rows::{rows, rows_at};
pub use support_list::{holders, holders_at};
