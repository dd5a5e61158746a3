//! Sessions that are saved as trees, and loaded again.

mod faults;
mod loaded;
mod refused;
mod texts;
mod trees;
