//! What stands of an obligation, to be printed.

use crate::printed_obligation::PrintedObligation;
use partial::obligation::Obligation;
use partial::stage::Stage;
use std::fmt;

/// What stands of an obligation, or that nothing does, to be printed.
#[derive(Clone, Copy)]
pub struct PrintedStanding(pub Option<Obligation>);

/// The obligation, and which leg alone is owed, if one is.
impl fmt::Display for PrintedStanding {
    fn fmt<W: fmt::Write>(&self, f: &mut fmt::Formatter<W>) -> fmt::Result {
        let Some(obligation) = self.0 else {
            return f.write_str("none");
        };
        write!(f, "{}", PrintedObligation(obligation))?;
        f.write_str(match obligation.stage {
            Stage::BothOwed => "",
            Stage::MoneyOwed => ", of which the money is owed",
            Stage::SecuritiesOwed => ", of which the securities are owed",
        })
    }
}
