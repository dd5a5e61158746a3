//! Reports the progress of loading a saved tree.

/// Receives the progress of loading the moments of a saved tree.
pub trait LoadProgress {
    /// This many moments, of `of` in all, are loaded.
    fn loaded(&self, moments: usize, of: usize);

    /// Whether anyone sees the progress. If no one does, items that are loaded as they are read need not be counted first.
    fn is_told(&self) -> bool {
        true
    }
}

/// Ignores the progress.
#[derive(Clone, Copy)]
pub struct NoProgress;

impl LoadProgress for NoProgress {
    fn loaded(&self, _moments: usize, _of: usize) {}

    fn is_told(&self) -> bool {
        false
    }
}
