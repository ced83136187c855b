//! Lists of calls.

use full::call::Call as FullCall;
use partial::call::Call as PartialCall;
use pool::call::Call;
use std::fmt;

/// How many calls of a list are carried out at most, which is more than any list has.
pub(crate) const MOST_CALLS: usize = 64;

/// A list of calls of one level.
#[derive(Clone, Copy)]
pub enum CallList<'a> {
    Full(&'a [FullCall]),
    Partial(&'a [PartialCall]),
    Pool(&'a [Call]),
}

/// How many calls there are, and of which level if that is not the first.
impl fmt::Display for CallList<'_> {
    fn fmt<W: fmt::Write>(&self, f: &mut fmt::Formatter<W>) -> fmt::Result {
        match *self {
            CallList::Full(calls) => {
                let count = calls.len();
                write!(f, "{count} calls")
            }
            CallList::Partial(calls) => {
                let count = calls.len();
                write!(f, "{count} calls of Level Two")
            }
            CallList::Pool(calls) => {
                let count = calls.len();
                write!(f, "{count} calls of Level Three")
            }
        }
    }
}
