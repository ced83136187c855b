//! What a tally notes of an order.

ghost use Rattle.std.specs.Prelude.{◌≡◌, ◌-◌};

use crate::costs::{collateral, cost};
use full::announcement::Announcement;
use full::keys::{cash_key, holding_key, participant_key};
use full::mode::Mode;
use full::order::Order;
use full::side::Side;
use registers::key::Key;

/// An announced order, the ratio of its security, what was traded of it and what its withdrawal gave back; the place
/// of the register of its block among those opened, and the look in which it was seen last.
#[derive(Clone, Copy)]
pub struct Note {
    pub announced: Announcement,
    pub ratio: u16,
    pub traded: u32,
    pub back: u32,
    pub register: usize,
    pub seen: u64,
}

impl Note {
    /// An order of which nothing is traded yet.
    pub(crate) fn of(announced: Announcement, ratio: u16) -> Note {
        Note {
            announced,
            ratio,
            traded: 0,
            back: 0,
            register: 0,
            seen: 0,
        }
    }

    /// Whether the order is in partial mode.
    pub(crate) fn is_partial(self) -> bool {
        self.announced.mode == Mode::Partial as u8
    }

    /// The quantity less the traded parts, less what was given back.
    pub(crate) fn rest(self) -> u32
        ensures { result ≡ self.announced.quantity - self.traded - self.back }
    {
        self.announced
            .quantity
            .saturating_sub(self.traded)
            .saturating_sub(self.back)
    }

    /// The register that the order's block lies on.
    pub(crate) fn key(self) -> Key {
        let announced = self.announced;
        match announced.side {
            _ if self.is_partial() => participant_key(announced.account),
            Side::Buy => cash_key(announced.account),
            Side::Sell => holding_key(announced.account, announced.security),
        }
    }

    /// The collateral for a quantity of the order at a price; 0 for none.
    pub(crate) fn collateral_at(self, quantity: u32, price: u32) -> u64 {
        collateral(quantity, price, self.ratio).unwrap_or(0)
    }

    /// The block of a quantity of the order.
    pub(crate) fn block_of(self, quantity: u32) -> u64 {
        let price = self.announced.price;
        match self.announced.side {
            _ if self.is_partial() => self.collateral_at(quantity, price),
            Side::Buy => cost(quantity, price).unwrap_or(0),
            Side::Sell => u64::from(quantity),
        }
    }

    /// The block of the order's rest.
    pub(crate) fn block(self) -> u64 {
        self.block_of(self.rest())
    }

    /// Whether a live order is this one, as announced and with its rest.
    pub(crate) fn stands_as(self, order: &Order) -> bool {
        let announced = self.announced;
        order.number == announced.number
            && order.side == announced.side
            && order.mode as u8 == announced.mode
            && order.account == announced.account
            && order.security == announced.security
            && order.price.value == announced.price
            && order.ratio.value == u32::from(self.ratio)
            && order.rest.value == self.rest()
    }
}
