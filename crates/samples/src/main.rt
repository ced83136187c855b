//! Runs the sample dealings and prints what each step did.
#![tactic(auto)]

mod amounts;
mod brought;
mod circle;
mod damage;
mod engine;
mod examples;
mod limits;
mod obligations;
mod partial_calls;
mod pools;
mod settlement;
mod stores;

use std::io;

fn main(rt: HostRuntime) -> io::Result<()> {
    examples::examples_hold();
    amounts::show(&rt)?;
    stores::show(&rt)?;
    damage::show(&rt)?;
    engine::show(&rt)?;
    limits::show(&rt)?;
    pools::show(&rt)
}
