//! Counts of calls, of refusals and of drift.

use crate::drift::{Drift, NO_DRIFT};
use crate::kind::{CALL_KINDS, CallKind, KIND_COUNT};
use crate::line::{Line, NO_CALLS};
use crate::spoiling::{SPOILING_COUNT, SPOILINGS, Spoiling};
use plans::refusal::Refusal;
use std::io;

/// A line for each kind, the greatest drift that was seen, and how often notes were spoilt and that was noticed.
#[derive(Clone, Copy)]
pub struct Counts {
    pub lines: [Line; KIND_COUNT],
    pub drift: Drift,
    pub noticed: [u64; SPOILING_COUNT],
}

impl Counts {
    /// The counts of no calls.
    pub(crate) fn new() -> Counts {
        Counts {
            lines: [NO_CALLS; KIND_COUNT],
            drift: NO_DRIFT,
            noticed: [0; SPOILING_COUNT],
        }
    }

    /// Counts a call of a kind, and the greatest drift after it.
    pub(crate) fn count(&mut self, kind: CallKind, outcome: Result<i64, Refusal>, drift: Drift) {
        if let Some(line) = self.lines.get_mut(kind as usize) {
            line.count(outcome);
        }
        self.drift = self.drift.greater(drift);
    }

    /// Counts that a note was spoilt, and that it was noticed.
    pub(crate) fn notice(&mut self, spoiling: Spoiling) {
        if let Some(count) = self.noticed.get_mut(spoiling as usize) {
            *count = count.saturating_add(1);
        }
    }

    fn all(&self) -> Line {
        self.lines
            .iter()
            .fold(NO_CALLS, |sum: Line, line| sum.plus(line))
    }

    /// Prints a line for each kind of calls, what all of them come to, and a line for each kind of note that was
    /// spoilt.
    pub(crate) fn show(&self, rt: &HostRuntime) -> io::Result<()> {
        for (kind, line) in CALL_KINDS.iter().zip(&self.lines) {
            line.show(rt, kind.name())?;
        }
        let all = self.all();
        println!(rt; "calls: {}", all.made)?;
        println!(rt; "accepted: {}", all.accepted)?;
        for (number, count) in all.refused.iter().enumerate() {
            if *count > 0 {
                println!(rt; "refused {number}: {count}")?;
            }
        }
        println!(rt; "greatest drift: {}", self.drift)?;
        for (spoiling, count) in SPOILINGS.iter().zip(&self.noticed) {
            if *count > 0 {
                println!(rt; "spoilt and noticed: {}: {count}", spoiling.name())?;
            }
        }
        Ok(())
    }
}
