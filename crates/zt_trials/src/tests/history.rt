//! A history alone, and questions to it.

mod branch_calls;
mod branches;
mod cascades;
mod limits;
mod moves;
mod pairs;
mod queries;
mod same;
mod trials;
mod twins;
