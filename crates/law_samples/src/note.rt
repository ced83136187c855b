//! What a tally notes of an order.

use crate::costs::{collateral, cost};
use full::announcement::Announcement;
use full::keys::{cash_key, holding_key, participant_key};
use full::mode::Mode;
use full::side::Side;
use registers::key::Key;

/// An announced order, the ratio noted for its security, what was traded of it and what its withdrawal gave back.
#[derive(Clone, Copy)]
pub struct Note {
    pub announced: Announcement,
    pub ratio: u16,
    pub traded: u32,
    pub back: u32,
}

impl Note {
    /// The quantity less the traded parts, less what was given back.
    pub(crate) fn rest(self) -> u32 {
        self.announced
            .quantity
            .saturating_sub(self.traded)
            .saturating_sub(self.back)
    }

    /// Whether the order was announced with partial collateral.
    pub(crate) fn is_partial(self) -> bool {
        self.announced.mode == Mode::Partial as u8
    }

    /// The register that the order's block lies on.
    pub(crate) fn key(self) -> Key {
        let account = self.announced.account;
        if self.is_partial() {
            return participant_key(account);
        }
        match self.announced.side {
            Side::Buy => cash_key(account),
            Side::Sell => holding_key(account, self.announced.security),
        }
    }

    /// The block of the order's rest.
    pub(crate) fn block(self) -> u64 {
        let rest = self.rest();
        let price = self.announced.price;
        if self.is_partial() {
            return collateral(rest, price, self.ratio).unwrap_or(0);
        }
        match self.announced.side {
            Side::Buy => cost(rest, price).unwrap_or(0),
            Side::Sell => u64::from(rest),
        }
    }
}
