//! What a book knows of each client: its cursor, its pinned moment, and its count of answered commands.

use zt_history::BranchId;
use zt_rows::Moment;

/// Where a client stands.
#[derive(Clone, Copy, Debug)]
pub enum Cursor {
    /// At the head of a branch, also when the head moves.
    Follows(BranchId),
    /// At a moment, where calls are refused.
    At(Moment),
}

/// What a book knows of a client.
#[derive(Clone, Copy, Debug)]
pub struct Client {
    pub cursor: Cursor,
    /// The moment that the client pinned last.
    pub pinned: Option<Moment>,
    /// The number of commands that were answered to the client.
    pub rows: u32,
}
