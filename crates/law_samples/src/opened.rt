//! What a tally notes of a register.

use registers::key::Key;
use registers::kind::RegisterKind;

/// A register with its key, its blocked figure when it was opened, and how often a trade left a rest there.
#[derive(Clone, Copy)]
pub struct Opened {
    pub key: Key,
    pub blocked: u64,
    pub trades_leaving_rest: u32,
}

impl Opened {
    /// By how many kopecks the blocked figure may be off: none for securities.
    pub(crate) fn allowance(self) -> u32 {
        if self.key.is(RegisterKind::Holding) {
            0
        } else {
            self.trades_leaving_rest
        }
    }
}
