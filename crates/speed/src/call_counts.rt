//! Counts of calls.

ghost use Rattle.std.specs.Prelude.{◌≡◌, ◌+◌, ◌<◌, ◌≤◌, ◌^◌, is_ok, if◌then◌else◌};

use plans::refusal::Refusal;
use std::fmt;

/// What an engine makes of a call: its answer or its refusal.
pub type Outcome = Result<i64, Refusal>;

/// How many calls of one kind were made, how many of them were accepted, and what the last one answered.
#[derive(Clone, Copy, PartialEq, Eq, Debug)]
pub struct CallCounts {
    pub made: u64,
    pub accepted: u64,
    pub last: Option<Outcome>,
    ghost within: { accepted ≤ made },
}

impl CallCounts {
    /// Counts of no call.
    pub fn new() -> CallCounts
        ensures made { result.made ≡ 0 }
        ensures last { result.last ≡ None }
    {
        CallCounts {
            made: 0,
            accepted: 0,
            last: None,
        }
    }

    /// Counts a call.
    pub(crate) fn count(&mut self, outcome: Outcome)
        requires { self.old.made < 2 ^ 63 }
        ensures made { self.new.made ≡ self.old.made + 1 }
        ensures accepted { self.new.accepted ≡ self.old.accepted + (if is_ok outcome then 1 else 0) }
        ensures last { self.new.last ≡ Some outcome }
    {
        *self = CallCounts {
            made: self.made + 1,
            accepted: self.accepted + u64::from(outcome.is_ok()),
            last: Some(outcome),
        };
    }
}

/// Both counts, and the last answer.
impl fmt::Display for CallCounts {
    fn fmt<W: fmt::Write>(&self, f: &mut fmt::Formatter<W>) -> fmt::Result {
        let CallCounts {
            made,
            accepted,
            last,
        } = *self;
        write!(f, "{made} made, {accepted} accepted")?;
        match last {
            None => Ok(()),
            Some(Ok(answer)) => write!(f, ", the last ok {answer}"),
            Some(Err(refusal)) => write!(f, ", the last no {refusal}"),
        }
    }
}
