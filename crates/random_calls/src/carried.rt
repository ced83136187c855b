//! What came of a call.

use crate::drift::Drift;
use plans::refusal::Refusal;

/// What came of a call: what the engines answered, and the greatest drift after it.
#[derive(Clone, Copy)]
pub struct Carried {
    pub outcome: Result<i64, Refusal>,
    pub drift: Drift,
}
