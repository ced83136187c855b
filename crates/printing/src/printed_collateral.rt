//! What calls of Level One say of collateral, to be printed.

ghost use Rattle.std.specs.Prelude.{Some};
ghost use Rattle.printing.specs.Texts.{collateral_text};

use full::call::Call;
use full::mode::Mode;
use std::fmt;

/// What a call says of collateral, to be printed behind its short text: a margin that is not 0, a mode that is
/// not full.
#[derive(Clone, Copy)]
pub struct PrintedCollateral(pub Call);

impl fmt::Display for PrintedCollateral {
    ghost output = { λ c. Some (collateral_text c.0) };

    fn fmt<W: fmt::Write>(&self, f: &mut fmt::Formatter<W>) -> fmt::Result {
        match self.0 {
            Call::Open(opening) if opening.margin != 0 => {
                let margin = opening.margin;
                write!(f, " margin {margin}")
            }
            Call::Announce(announced) if announced.mode != Mode::Full as u8 => {
                let mode = announced.mode;
                write!(f, " mode {mode}")
            }
            _ => Ok(()),
        }
    }
}
