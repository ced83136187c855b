//! Level Three's dealings, on the engine over both stores.

use crate::limits::show_state;
use crate::{brought, circle, settlement};
use partial::call::Call as PartialCall;
use plans::machine::Machine;
use plans::refusal::Refusal;
use pool::call::Call;
use pool::engine::Engine;
use pool::leg::Leg;
use pool::ticket::{Collecting, Ending};
use printing::printed_outcome::PrintedOutcome;
use printing::printed_pool_call::PrintedPoolCall;
use registers::image;
use registers::image::ImageStore;
use registers::row::BLANK;
use registers::store::Store;
use registers::table::RowStore;
use std::io;

/// What is done in one pool.
#[derive(Clone, Copy)]
pub struct Pool<'a> {
    /// What is earmarked while it collects: accounts, each with a security or 0 for its cash.
    pub earmarks: &'a [(u32, u16)],
    /// What is settled while it ends: legs, each of the obligation of a trade's number.
    pub legs: &'a [(Leg, u32)],
}

fn tell(rt: &HostRuntime, call: Call, outcome: Result<i64, Refusal>) -> io::Result<()> {
    println!(rt; "{}: {}", PrintedPoolCall(call), PrintedOutcome(outcome))
}

/// Makes calls of Level Two, prints each with its answer, and then every row and every obligation.
pub fn deal<S: Store>(
    rt: &HostRuntime,
    engine: &mut Engine<S>,
    calls: &[PartialCall],
) -> io::Result<()> {
    for call in calls {
        let outcome = engine.partial.carry_out(*call);
        tell(rt, (*call).into(), outcome)?;
    }
    show_state(rt, &mut engine.partial)
}

fn collect<S: Store>(
    rt: &HostRuntime,
    engine: &mut Engine<S>,
    ticket: &Collecting,
    pool: Pool,
) -> io::Result<()> {
    println!(rt; "a pool is formed")?;
    for (code, security) in pool.earmarks {
        let outcome = engine.earmark(ticket, *code, *security);
        let call = Call::Earmark {
            code: *code,
            security: *security,
        };
        tell(rt, call, outcome)?;
    }
    show_state(rt, &mut engine.partial)
}

fn settle<S: Store>(
    rt: &HostRuntime,
    engine: &mut Engine<S>,
    ticket: &Ending,
    pool: Pool,
) -> io::Result<()> {
    println!(rt; "collection is ended")?;
    for (leg, number) in pool.legs {
        let number = *number;
        match *leg {
            Leg::Securities => {
                let outcome = engine.deliver(ticket, number);
                tell(rt, Call::Deliver { number }, outcome)?;
            }
            Leg::Money => {
                let outcome = engine.pay(ticket, number);
                tell(rt, Call::Pay { number }, outcome)?;
            }
        }
    }
    show_state(rt, &mut engine.partial)
}

/// Forms a pool, earmarks, ends collection, settles and closes; prints each step with its answer, and every row and
/// every obligation as collection, settlement and close leave them.
pub fn run_pool<S: Store>(rt: &HostRuntime, engine: &mut Engine<S>, pool: Pool) -> io::Result<()> {
    let collecting = Collecting::form();
    let collected = collect(rt, engine, &collecting, pool);
    let ending = collecting.end();
    let settled = settle(rt, engine, &ending, pool);
    let closed = engine.close(ending);
    // behind the close: where a ticket is held, no `?` may leave
    collected?;
    settled?;
    tell(rt, Call::Close, closed)?;
    show_state(rt, &mut engine.partial)
}

/// An image store over bytes that are made an empty image.
fn blank_image(bytes: &mut [u8]) -> ImageStore<'_> {
    // long enough for a header
    let _ = image::format(bytes);
    ImageStore::new(bytes)
}

/// Runs the level's dealings over a row store and over an image store, each of room 8.
pub fn show(rt: &HostRuntime) -> io::Result<()> {
    println!(rt; "engine of Level Three over a row store")?;
    let mut table = [BLANK; 8];
    settlement::show(rt, RowStore::new(&mut table))?;
    circle::show(rt, RowStore::new(&mut table))?;
    brought::show(rt, RowStore::new(&mut table))?;
    println!(rt; "engine of Level Three over an image store")?;
    let mut bytes = [0; 255];
    settlement::show(rt, blank_image(&mut bytes))?;
    circle::show(rt, blank_image(&mut bytes))?;
    brought::show(rt, blank_image(&mut bytes))
}
