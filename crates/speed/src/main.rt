//! Carries out rounds of an order to buy, an order to sell and their trade on the engine of Level One, over
//! both stores and with more and more accounts, and prints what the calls answered and how the rows of the
//! buyer and the seller stand at the end.
//!
//! With the argument `ns` it carries out more rounds, and prints the nanoseconds of a call as well.
#![tactic(auto)]

mod call_counts;
mod dealings;
mod rounds;
mod runs;
mod size;

use std::{env, io};

fn main(rt: HostRuntime) -> io::Result<()> {
    let timed = env::args(&rt)?.skip(1).any(|word| word.as_str() == "ns");
    runs::show(&rt, timed)
}
