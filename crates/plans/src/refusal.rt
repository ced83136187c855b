//! Why the engine refuses a call.

ghost use Rattle.std.specs.Prelude.{◌≡◌, Some};
ghost use Rattle.plans.specs.declared.refusal.Refusal.TheVariants.{Store as StoreRefusal};
ghost use Rattle.plans.specs.Refusals.{number_of, layer_of, refusal_text};

use crate::layer::Layer;
use registers::fault::StoreFault;
use std::error::Error;
use std::fmt;

/// A refusal of the engine, of every level. Each has its number, and every refusal leaves the engine
/// and its store as they stood.
#[derive(Clone, Copy, PartialEq, Eq, Debug)]
pub enum Refusal {
    /// The register is open already.
    RegisterOpen,
    /// The security is admitted already.
    SecurityAdmitted,
    /// As many securities are admitted as there is room for.
    SecuritiesFull,
    /// A value lies outside its range.
    BadValue,
    /// The security is not admitted.
    NotAdmitted,
    /// The order number is not above the last.
    OrderNumberNotAbove,
    /// As many orders live as there is room for.
    OrdersFull,
    /// The order is not covered.
    NotCovered,
    /// There is no such live order.
    NoOrder,
    /// The trade number is not above the last.
    TradeNumberNotAbove,
    /// The first order is no buy, or the second no sell.
    WrongSide,
    /// The orders differ in security or mode.
    Mismatch,
    /// Both orders are of one account.
    SameAccount,
    /// The quantity is above a rest.
    AboveRest,
    /// The price is above the buy price or below the sell price.
    PriceOutside,
    /// As many obligations stand as there is room for.
    ObligationsFull,
    /// The limit is below the blocked figure.
    MarginCall,
    /// The amount is above the collateral.
    AboveCollateral,
    /// The limit less the amount does not exceed the blocked figure.
    NotSpared,
    /// There is no such obligation.
    NoObligation,
    /// The leg is settled already.
    LegSettled,
    /// The debtor's third figure is below the amount.
    ThirdBelow,
    /// Figures would leave their range.
    LeavesRange,
    /// The store's fault.
    Store(StoreFault),
}

impl From<StoreFault> for Refusal {
    ghost from_gives = { λ e r. r ≡ StoreRefusal e };

    fn from(fault: StoreFault) -> Refusal {
        Refusal::Store(fault)
    }
}

impl Refusal {
    /// The refusal's number.
    pub fn number(self) -> u8
        ensures { result ≡ number_of self }
    {
        // a match, since `as` takes no enum with a case that carries a fault
        match self {
            Refusal::RegisterOpen => 1,
            Refusal::SecurityAdmitted => 3,
            Refusal::SecuritiesFull => 4,
            Refusal::BadValue => 5,
            Refusal::NotAdmitted => 7,
            Refusal::OrderNumberNotAbove => 8,
            Refusal::OrdersFull => 9,
            Refusal::NotCovered => 10,
            Refusal::NoOrder => 11,
            Refusal::TradeNumberNotAbove => 12,
            Refusal::WrongSide => 13,
            Refusal::Mismatch => 14,
            Refusal::SameAccount => 15,
            Refusal::AboveRest => 16,
            Refusal::PriceOutside => 17,
            Refusal::ObligationsFull => 18,
            Refusal::MarginCall => 19,
            Refusal::AboveCollateral => 20,
            Refusal::NotSpared => 21,
            Refusal::NoObligation => 22,
            Refusal::LegSettled => 23,
            Refusal::ThirdBelow => 24,
            Refusal::LeavesRange => 26,
            Refusal::Store(fault) => fault.number(),
        }
    }

    /// The layer that brought the refusal about.
    pub fn layer(self) -> Layer
        ensures { result ≡ layer_of self }
    {
        match self {
            Refusal::Store(_) => Layer::Store,
            _ => Layer::Engine,
        }
    }
}

/// The number and the letter of the layer.
impl fmt::Display for Refusal {
    ghost output = { λ r. Some (refusal_text r) };

    fn fmt<W: fmt::Write>(&self, f: &mut fmt::Formatter<W>) -> fmt::Result {
        let number = self.number();
        let layer = self.layer();
        write!(f, "{number} {layer}")
    }
}

impl Error for Refusal {}
