//! Runs lists of calls of all three levels over both stores, and those of Level Three over a store that counts its
//! changes too, and prints the engine's figures and obligations beside the tally's, so that the law over whole runs
//! can be seen to hold.
#![tactic(auto)]

mod call_list;
mod costs;
mod dealings;
mod figures;
mod note;
mod obligations;
mod opened;
mod owed;
mod partial_dealings;
mod places;
mod pool_dealings;
mod printed_obligation;
mod printed_standing;
mod runs;
mod tally;

use crate::call_list::CallList;
use crate::dealings::dealings;
use crate::partial_dealings::{both_modes, one_participant};
use crate::pool_dealings::{circle, settlement};
use crate::runs::{show_counted, show_over_both};
use pool::call::Call;
use std::io;

/// Runs a list of Level Three over all three stores.
fn show_over_all(rt: &HostRuntime, calls: &[Call]) -> io::Result<()> {
    show_over_both(rt, CallList::Pool(calls))?;
    show_counted(rt, calls)
}

/// How many calls of the settlement leave one leg owed of each obligation.
const HALF_SETTLED: usize = 20;

/// Runs the settlement as far as each obligation is half settled, and then all of it.
fn show_settlement(rt: &HostRuntime) -> io::Result<()> {
    let calls = settlement();
    if let Some(start) = calls.get(..HALF_SETTLED) {
        show_over_all(rt, start)?;
    }
    show_over_all(rt, &calls)
}

fn main(rt: HostRuntime) -> io::Result<()> {
    let calls = dealings();
    show_over_both(&rt, CallList::Full(&calls[..8]))?;
    show_over_both(&rt, CallList::Full(&calls))?;
    show_over_both(&rt, CallList::Partial(&both_modes()))?;
    let calls = one_participant();
    show_over_both(&rt, CallList::Partial(&calls[..9]))?;
    show_over_both(&rt, CallList::Partial(&calls))?;
    show_settlement(&rt)?;
    show_over_all(&rt, &circle())
}
