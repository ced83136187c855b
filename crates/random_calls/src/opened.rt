//! What a tally notes of a register.

use full::opening::Opening;
use registers::key::Key;
use registers::kind::RegisterKind;

/// A register as it was opened, how often a trade left a rest there, and the blocks of the live rests there.
#[derive(Clone, Copy)]
pub struct Opened {
    pub key: Key,
    pub limit: u64,
    pub blocked: u64,
    pub trades_leaving_rest: u64,
    pub live_blocks: u64,
}

impl Opened {
    /// A register as an opening names it.
    pub(crate) fn of(opening: Opening) -> Opened {
        Opened {
            key: Key {
                kind: opening.kind,
                code: opening.code,
                security: opening.security,
            },
            limit: opening.limit,
            blocked: opening.margin,
            trades_leaving_rest: 0,
            live_blocks: 0,
        }
    }

    /// By how much the blocked figure may be off: by nothing for securities.
    pub(crate) fn allowance(self) -> u64 {
        if self.key.is(RegisterKind::Holding) {
            0
        } else {
            self.trades_leaving_rest
        }
    }
}
