//! Counts of calls of a kind, and of refusals.

use plans::refusal::Refusal;
use std::io;

/// One more than the greatest number of an engine's refusal.
const NUMBERS: usize = 27;

/// How many calls of a kind were made and accepted, how many of these answered 0, and how many were refused under
/// each number.
#[derive(Clone, Copy)]
pub struct Line {
    pub made: u64,
    pub accepted: u64,
    pub zeros: u64,
    pub refused: [u64; NUMBERS],
}

/// The counts of no calls.
pub const NO_CALLS: Line = Line {
    made: 0,
    accepted: 0,
    zeros: 0,
    refused: [0; NUMBERS],
};

impl Line {
    /// Counts a call.
    pub(crate) fn count(&mut self, outcome: Result<i64, Refusal>) {
        self.made = self.made.saturating_add(1);
        match outcome {
            Ok(answer) => {
                self.accepted = self.accepted.saturating_add(1);
                self.zeros = self.zeros.saturating_add(u64::from(answer == 0));
            }
            Err(refusal) => {
                if let Some(count) = self.refused.get_mut(usize::from(refusal.number())) {
                    *count = count.saturating_add(1);
                }
            }
        }
    }

    /// Prints the counts behind a name.
    pub(crate) fn show(&self, rt: &HostRuntime, name: &str) -> io::Result<()> {
        let Line {
            made,
            accepted,
            zeros,
            ..
        } = *self;
        print!(rt; "{name}: {made} made, {accepted} accepted")?;
        if zeros > 0 {
            print!(rt; ", {zeros} of them with 0")?;
        }
        for (number, count) in self.refused.iter().enumerate() {
            if *count > 0 {
                print!(rt; ", refused {number}: {count}")?;
            }
        }
        println!(rt; "")
    }

    /// Both together.
    pub(crate) fn plus(&self, other: &Line) -> Line {
        let mut sum = *self;
        sum.made = sum.made.saturating_add(other.made);
        sum.accepted = sum.accepted.saturating_add(other.accepted);
        sum.zeros = sum.zeros.saturating_add(other.zeros);
        for (count, more) in sum.refused.iter_mut().zip(&other.refused) {
            *count = count.saturating_add(*more);
        }
        sum
    }
}
