//! What is asked of all runs.

/// What is asked of all runs: how many calls they have together, and after how many calls of each notes are spoilt,
/// if they are.
#[derive(Clone, Copy)]
pub struct Task {
    pub calls: u64,
    pub spoil_after: Option<u64>,
}
