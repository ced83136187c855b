//! What the law can be found broken by.

use std::alloc::AllocError;
use std::fmt;

/// A line of the law that does not hold, or what keeps it from being looked at.
#[derive(Clone, Copy, PartialEq, Eq, Debug)]
pub enum Fault {
    /// There is no memory.
    Memory,
    /// The engines answer otherwise than one another.
    Unlike,
    /// Other changes of the store were counted than the answer says.
    OtherChanges,
    /// A register was opened that was open.
    OpenedAgain,
    /// An order was accepted in a security that was not admitted.
    NotAdmitted,
    /// An order was accepted whose block has no register.
    NotOpened,
    /// Two accepted orders bear one number.
    AnnouncedAgain,
    /// An order was traded or withdrawn that was not announced.
    NotAnnounced,
    /// More was traded and given back than was announced.
    RestBelowZero,
    /// Two accepted trades in partial mode bear one number.
    TradedAgain,
    /// A leg was settled of an obligation that was not noted.
    NotOwed,
    /// A leg was settled that was settled before.
    SettledAgain,
    /// A live order is not one that was noted with this rest.
    OtherOrder,
    /// A live order stands in two places.
    OrderTwice,
    /// An order with a rest is not live.
    OrderMissing,
    /// The rows do not bear the opened keys.
    OtherRows,
    /// A blocked figure is further off than it may be.
    Blocked,
    /// The limit of a holding is below its blocked figure.
    HoldingBelow,
    /// A limit of cash is below the smaller of its opening limit and the reserve, less the allowance.
    CashBelow,
    /// An obligation is not what is left of one that was noted.
    OtherObligation,
    /// An obligation stands in two places.
    ObligationTwice,
    /// An obligation of which a leg is owed does not stand.
    ObligationMissing,
    /// A note that was spoilt is not found.
    Unnoticed,
}

impl From<AllocError> for Fault {
    fn from(_error: AllocError) -> Fault {
        Fault::Memory
    }
}

/// The fault in words.
impl fmt::Display for Fault {
    fn fmt<W: fmt::Write>(&self, f: &mut fmt::Formatter<W>) -> fmt::Result {
        f.write_str(match self {
            Fault::Memory => "there is no memory",
            Fault::Unlike => "the engines answer otherwise than one another",
            Fault::OtherChanges => "other changes were counted than the answer says",
            Fault::OpenedAgain => "a register was opened that was open",
            Fault::NotAdmitted => "an order was accepted in a security that was not admitted",
            Fault::NotOpened => "an order was accepted whose block has no register",
            Fault::AnnouncedAgain => "two accepted orders bear one number",
            Fault::NotAnnounced => "an order was traded or withdrawn that was not announced",
            Fault::RestBelowZero => "more was traded and given back than was announced",
            Fault::TradedAgain => "two accepted trades in partial mode bear one number",
            Fault::NotOwed => "a leg was settled of an obligation that was not noted",
            Fault::SettledAgain => "a leg was settled that was settled before",
            Fault::OtherOrder => "a live order is not one that was noted with this rest",
            Fault::OrderTwice => "a live order stands in two places",
            Fault::OrderMissing => "an order with a rest is not live",
            Fault::OtherRows => "the rows do not bear the opened keys",
            Fault::Blocked => "a blocked figure is further off than it may be",
            Fault::HoldingBelow => "the limit of a holding is below its blocked figure",
            Fault::CashBelow => "a limit of cash is lower than it may be",
            Fault::OtherObligation => "an obligation is not what is left of one that was noted",
            Fault::ObligationTwice => "an obligation stands in two places",
            Fault::ObligationMissing => "an obligation of which a leg is owed does not stand",
            Fault::Unnoticed => "a note that was spoilt is not found",
        })
    }
}
