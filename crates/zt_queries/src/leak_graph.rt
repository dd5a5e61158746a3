//! Finds leaks in a graph: it is drawn from a state, moved along a path by the records on the way, and searched for
//! what is reached.

pub mod first_leak;
pub(crate) mod graph;
pub mod leak_list;
pub(crate) mod moved_graph;
pub(crate) mod name_search;
pub(crate) mod never_leaked;
pub(crate) mod reachability;
pub(crate) mod record_reach;
pub(crate) mod unleaked_signs;
