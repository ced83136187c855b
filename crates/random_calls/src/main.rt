//! Makes random calls of Level Three in step on three engines, over a row store, over an image and over a row store
//! whose changes are counted, and looks at the law over each after each call, and at the count. Prints how many calls
//! of each kind were accepted and refused, the greatest drift of a blocked figure, and the first failure, if there is
//! one; the status is then 1.
//!
//! The arguments are how many calls to make, and a seed. The same seed gives the same calls. The word `spoil` and a
//! number may follow: after so many calls of each run a note of the tally is spoilt, one of each kind in turn, and
//! what the looker does not notice is a failure.
#![tactic(auto)]

mod any_note;
mod asked;
mod carried;
mod changes;
mod codes;
mod costs;
mod counts;
mod course;
mod draws;
mod drift;
mod engines;
mod failure;
mod fault;
mod found;
mod kind;
mod law;
mod legs;
mod line;
mod making;
mod market;
mod note;
mod opened;
mod orders;
mod owed;
mod place;
mod runs;
mod shape;
mod spoiling;
mod tally;
mod task;
mod tickets;
mod two;
mod weights;
mod wish;

use crate::counts::Counts;
use crate::draws::Draws;
use crate::runs::run_all;
use crate::task::Task;
use std::process::ExitCode;
use std::{env, io};

/// How many calls are made where no argument says it.
const CALLS: u64 = 7_000;

/// The seed where no argument gives one.
const SEED: u64 = 3;

/// The number that an argument spells, or another one where there is no argument.
fn number(word: Option<String>, otherwise: u64) -> io::Result<u64> {
    match word {
        Some(word) => word
            .as_str()
            .parse::<u64>()
            .map_err(|_| io::Error::from(io::ErrorKind::InvalidInput)),
        None => Ok(otherwise),
    }
}

/// After how many calls of a run notes are spoilt, where two words ask for it.
fn spoil_after(word: Option<String>, calls: Option<String>) -> io::Result<Option<u64>> {
    match word {
        Some(word) if word.as_str() == "spoil" => Ok(Some(number(calls, 1)?)),
        Some(_) => Err(io::Error::from(io::ErrorKind::InvalidInput)),
        None => Ok(None),
    }
}

fn main(rt: HostRuntime) -> io::Result<ExitCode> {
    let mut words = env::args(&rt)?.skip(1);
    let calls = number(words.next(), CALLS)?;
    let seed = number(words.next(), SEED)?;
    let task = Task {
        calls,
        spoil_after: spoil_after(words.next(), words.next())?,
    };
    let mut draws = Draws::new(seed);
    let mut counts = Counts::new();
    let outcome = run_all(rt.alloc(), task, &mut draws, &mut counts);
    counts.show(&rt)?;
    match outcome {
        Ok(()) => {
            println!(rt; "failures 0")?;
            Ok(ExitCode::SUCCESS)
        }
        Err(failure) => {
            println!(rt; "failure {failure}")?;
            println!(rt; "failures 1")?;
            Ok(ExitCode::FAILURE)
        }
    }
}
