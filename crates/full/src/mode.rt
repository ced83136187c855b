//! The modes of orders.

ghost use Rattle.std.specs.Prelude.{◌≡◌};
ghost use Rattle.plans.specs.declared.refusal.Refusal.TheVariants.{BadValue};
ghost use Rattle.plans.specs.Steps.{or_refuse};
ghost use Rattle.full.specs.Terms.{mode_of};

use plans::refusal::Refusal;

/// What covers an order: the account's own cash or securities in full, or a part of the
/// participant's limit. Each mode has its number.
#[derive(Clone, Copy, PartialEq, Eq, Debug)]
pub enum Mode {
    /// Full collateral.
    Full = 1,
    /// Partial collateral.
    Partial = 2,
}

/// The mode that a number names. Refuses (5) a number that is none's.
impl TryFrom<u8> for Mode {
    type Error = Refusal;

    ghost try_from_gives = { λ number r. r ≡ or_refuse (mode_of number) BadValue };

    fn try_from(number: u8) -> Result<Mode, Refusal> {
        match number {
            1 => Ok(Mode::Full),
            2 => Ok(Mode::Partial),
            _ => Err(Refusal::BadValue),
        }
    }
}
