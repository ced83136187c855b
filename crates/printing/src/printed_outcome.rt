//! Outcomes, to be printed.

ghost use Rattle.std.specs.Prelude.{Some};
ghost use Rattle.printing.specs.Texts.{outcome_text};

use plans::refusal::Refusal;
use std::fmt;

/// What a call answered, or its refusal, to be printed.
#[derive(Clone, Copy, PartialEq, Eq, Debug)]
pub struct PrintedOutcome(pub Result<i64, Refusal>);

impl fmt::Display for PrintedOutcome {
    ghost output = { λ o. Some (outcome_text o.0) };

    fn fmt<W: fmt::Write>(&self, f: &mut fmt::Formatter<W>) -> fmt::Result {
        match self.0 {
            Ok(answer) => write!(f, "ok {answer}"),
            Err(refusal) => write!(f, "no {refusal}"),
        }
    }
}
