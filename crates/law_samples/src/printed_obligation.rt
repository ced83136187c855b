//! Obligations, to be printed.

use partial::obligation::Obligation;
use std::fmt;

/// An obligation to be printed, without its number and its stage.
#[derive(Clone, Copy)]
pub struct PrintedObligation(pub Obligation);

impl fmt::Display for PrintedObligation {
    fn fmt<W: fmt::Write>(&self, f: &mut fmt::Formatter<W>) -> fmt::Result {
        let Obligation {
            seller,
            buyer,
            security,
            quantity,
            money,
            ..
        } = self.0;
        write!(
            f,
            "seller {seller}, buyer {buyer}, security {security}, quantity {quantity}, money {money}"
        )
    }
}
