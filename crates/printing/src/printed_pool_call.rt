//! Calls of Level Three, to be printed.

ghost use Rattle.std.specs.Prelude.{Some};
ghost use Rattle.printing.specs.Texts.{pool_call_text};

use crate::printed_partial_call::PrintedPartialCall;
use pool::call::Call;
use std::fmt;

/// A call of Level Three, to be printed in short: one of Level Two's as `PrintedPartialCall` prints it, or one of
/// the pool's with its arguments, without the ticket that it is shown.
#[derive(Clone, Copy, PartialEq, Eq, Debug)]
pub struct PrintedPoolCall(pub Call);

impl fmt::Display for PrintedPoolCall {
    ghost output = { λ c. Some (pool_call_text c.0) };

    fn fmt<W: fmt::Write>(&self, f: &mut fmt::Formatter<W>) -> fmt::Result {
        match self.0 {
            Call::Partial(call) => write!(f, "{}", PrintedPartialCall(call)),
            Call::Earmark { code, security } => write!(f, "earmark {code} {security}"),
            Call::Deliver { number } => write!(f, "deliver {number}"),
            Call::Pay { number } => write!(f, "pay {number}"),
            Call::Close => write!(f, "close"),
        }
    }
}
