//! The stages of an obligation.

/// What of an obligation is still owed.
#[derive(Clone, Copy, PartialEq, Eq, Debug)]
pub enum Stage {
    /// The securities and the money.
    BothOwed,
    /// The money alone: the securities are settled.
    MoneyOwed,
    /// The securities alone: the money is settled.
    SecuritiesOwed,
}
