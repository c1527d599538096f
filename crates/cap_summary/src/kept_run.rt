//! [`KeptRun`]: steps that an edited trace has kept.

/// Consecutive steps that two lists share: `len` steps that stood after `was` others stand after `at` now.
#[derive(Clone, Copy)]
pub struct KeptRun {
    /// How many steps stood before the run.
    pub was: usize,
    /// How many steps stand before it now.
    pub at: usize,
    /// How many steps it has.
    pub len: usize,
}
