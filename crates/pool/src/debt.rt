//! What a leg of an obligation is.

ghost use Rattle.std.specs.Prelude.{◌≡◌};
ghost use Rattle.pool.specs.Debts.{debt_of};

use crate::leg::Leg;
use full::asset::Asset;
use partial::obligation::Obligation;

/// What one account owes another: an amount of an asset, in kopecks or in pieces.
#[derive(Clone, Copy, PartialEq, Eq, Debug)]
pub struct Debt {
    pub debtor: u32,
    pub creditor: u32,
    pub asset: Asset,
    pub amount: u64,
}

impl Debt {
    /// A leg of an obligation: of the securities the seller's account owes the quantity to the buyer's, and
    /// of the money the buyer's account the amount to the seller's.
    pub fn of(obligation: Obligation, leg: Leg) -> Debt
        ensures { result ≡ debt_of obligation leg }
    {
        match leg {
            Leg::Securities => Debt {
                debtor: obligation.seller,
                creditor: obligation.buyer,
                asset: Asset::Security(obligation.security),
                amount: u64::from(obligation.quantity),
            },
            Leg::Money => Debt {
                debtor: obligation.buyer,
                creditor: obligation.seller,
                asset: Asset::Cash,
                amount: obligation.money,
            },
        }
    }
}
