//! Calls of Level Two, to be printed.

ghost use Rattle.std.specs.Prelude.{Some};
ghost use Rattle.printing.specs.Texts.{partial_call_text};

use crate::printed_call::PrintedCall;
use crate::printed_collateral::PrintedCollateral;
use partial::call::Call;
use std::fmt;

/// A call of Level Two, to be printed in short: one of Level One's as `PrintedCall` prints it, then an opening's
/// margin if it is not 0, or an order's mode if it is not full.
#[derive(Clone, Copy, PartialEq, Eq, Debug)]
pub struct PrintedPartialCall(pub Call);

impl fmt::Display for PrintedPartialCall {
    ghost output = { λ c. Some (partial_call_text c.0) };

    fn fmt<W: fmt::Write>(&self, f: &mut fmt::Formatter<W>) -> fmt::Result {
        match self.0 {
            Call::Full(call) => write!(f, "{}{}", PrintedCall(call), PrintedCollateral(call)),
            Call::Post {
                participant,
                amount,
            } => write!(f, "post {participant} {amount}"),
            Call::Debit {
                participant,
                amount,
            } => write!(f, "debit {participant} {amount}"),
        }
    }
}
