//! The text of obligations.

use partial::obligation::Obligation;
use partial::obligations::Obligations;
use partial::stage::Stage;
use std::{fmt, io};

/// An obligation, to be printed.
#[derive(Clone, Copy)]
struct PrintedObligation(Obligation);

fn what_is_owed(stage: Stage) -> &'static str {
    match stage {
        Stage::BothOwed => "securities and money",
        Stage::MoneyOwed => "money",
        Stage::SecuritiesOwed => "securities",
    }
}

impl fmt::Display for PrintedObligation {
    fn fmt<W: fmt::Write>(&self, f: &mut fmt::Formatter<W>) -> fmt::Result {
        let Obligation {
            number,
            seller,
            buyer,
            security,
            quantity,
            money,
            stage,
        } = self.0;
        let owed = what_is_owed(stage);
        write!(
            f,
            "obligation {number}: seller {seller}, buyer {buyer}, security {security}, quantity {quantity}, money {money}, owed: {owed}"
        )
    }
}

/// Prints every obligation that stands.
pub fn show_obligations(rt: &HostRuntime, obligations: &Obligations) -> io::Result<()> {
    for obligation in obligations.table.iter().flatten() {
        println!(rt; "{}", PrintedObligation(*obligation))?;
    }
    Ok(())
}
