//! Numbers that lie in their ranges by type.

ghost use Rattle.std.specs.Prelude.{◌≡◌, ◌≤◌};
ghost use Rattle.std.specs.Option.{option_map};
ghost use Rattle.registers.specs.Amounts.{ranged};

/// A number from 1 to `MOST`.
#[derive(Clone, Copy, PartialEq, Eq, Debug)]
pub struct Ranged<const MOST: u32> {
    pub value: u32,
    ghost least: { 1 ≤ value },
    ghost most: { value ≤ MOST },
}

/// The greatest price, in ten-thousandths of a ruble.
pub const MOST_PRICE: u32 = 100_000_000;

/// The greatest quantity, in pieces.
pub const MOST_QUANTITY: u32 = 1_000_000;

/// The greatest ratio, in ten-thousandths: the whole value.
pub const MOST_RATIO: u32 = 10_000;

/// A price: 1 to 100,000,000 ten-thousandths of a ruble.
pub type Price = Ranged<MOST_PRICE>;

/// A quantity of securities: 1 to 1,000,000.
pub type Quantity = Ranged<MOST_QUANTITY>;

/// A market risk ratio: 1 to 10,000 ten-thousandths.
pub type Ratio = Ranged<MOST_RATIO>;

impl<const MOST: u32> Ranged<MOST> {
    /// The number of this value, or `None` outside 1 to `MOST`.
    pub fn new(value: u32) -> Option<Ranged<MOST>>
        ensures { option_map (λ n. n.value) result ≡ ranged 1 MOST value }
    {
        if !(1..=MOST).contains(&value) {
            return None;
        }
        Some(Ranged { value })
    }
}
