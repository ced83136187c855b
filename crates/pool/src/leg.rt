//! The legs of an obligation.

/// A leg of an obligation. Which account owes it to which is told by its debt (`Debt::of`).
#[derive(Clone, Copy, PartialEq, Eq, Debug)]
pub enum Leg {
    /// The securities, which the seller's account owes.
    Securities,
    /// The money, which the buyer's account owes.
    Money,
}
