//! Failures: where and how the law was found broken.

use crate::fault::Fault;
use crate::place::Place;
use pool::call::Call;
use printing::printed_pool_call::PrintedPoolCall;
use std::alloc::AllocError;
use std::fmt;

/// A fault, its place, and the call after which it was found: the shape of its run, how many calls of the run were
/// made before it, and the call itself, or none where the run had not begun.
#[derive(Clone, Copy, Debug)]
pub struct Failure {
    pub fault: Fault,
    pub place: Place,
    pub run: &'static str,
    pub before: u64,
    pub call: Option<Call>,
}

impl From<AllocError> for Failure {
    fn from(error: AllocError) -> Failure {
        Failure {
            fault: Fault::from(error),
            place: Place::Answers,
            run: "none",
            before: 0,
            call: None,
        }
    }
}

/// In words: the run, the call, the place and the fault.
impl fmt::Display for Failure {
    fn fmt<W: fmt::Write>(&self, f: &mut fmt::Formatter<W>) -> fmt::Result {
        let Failure {
            fault,
            place,
            run,
            before,
            call,
        } = *self;
        write!(f, "in the run of {run}, after {before} calls")?;
        if let Some(call) = call {
            write!(f, ", at the call {}", PrintedPoolCall(call))?;
        }
        write!(f, ": {fault} ({place})")
    }
}
