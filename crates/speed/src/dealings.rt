//! The calls of rounds.

use crate::call_counts::CallCounts;
use std::fmt;

/// The calls of rounds, by their kinds.
#[derive(Clone, Copy, PartialEq, Eq, Debug)]
pub struct Dealings {
    pub purchases: CallCounts,
    pub sales: CallCounts,
    pub trades: CallCounts,
}

/// A line for each kind.
impl fmt::Display for Dealings {
    fn fmt<W: fmt::Write>(&self, f: &mut fmt::Formatter<W>) -> fmt::Result {
        let Dealings {
            purchases,
            sales,
            trades,
        } = *self;
        writeln!(f, "purchases: {purchases}")?;
        writeln!(f, "sales: {sales}")?;
        write!(f, "trades: {trades}")
    }
}
