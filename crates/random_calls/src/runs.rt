//! Runs of random calls over the three stores.

use crate::carried::Carried;
use crate::counts::Counts;
use crate::course::Course;
use crate::draws::Draws;
use crate::engines::Engines;
use crate::failure::Failure;
use crate::found::Found;
use crate::kind::CallKind;
use crate::making;
use crate::market::Market;
use crate::place::Place;
use crate::shape::{SHAPE_COUNT, SHAPES, Shape};
use crate::spoiling::SPOILINGS;
use crate::tally::Tally;
use crate::task::Task;
use crate::tickets::Tickets;
use crate::weights::{AT_FIRST, FIRST_CALLS};
use counting::counting::Counting;
use full::settings::Settings;
use pool::call::Call;
use pool::engine::Engine;
use pool::ticket::{Collecting, Ending};
use registers::image::{self, HEADER, ImageStore, ROW};
use registers::row::BLANK;
use registers::store::Store;
use registers::table::RowStore;
use std::alloc::Global;

/// How many calls a run has.
pub const CALLS_EACH: u64 = 1_000;

/// Draws the next call of a run, of which some were made, against an engine.
fn draw<S: Store>(draws: &mut Draws, shape: &Shape, made: u64, engine: &Engine<S>) -> Call {
    let weights = if made < FIRST_CALLS {
        AT_FIRST
    } else {
        shape.weights
    };
    let wish = weights.draw(draws);
    let market = Market {
        book: &engine.partial.full.book,
        obligations: &engine.partial.obligations,
        last_trade: engine.partial.full.last_trade,
    };
    making::call(draws, shape, market, wish)
}

/// Carries out a call on the engines, notes it if it was accepted, and looks at the law over each.
fn step<A: Store, B: Store, C: Store>(
    engines: &mut Engines<'_, A, B, C>,
    tally: &mut Tally,
    call: Call,
) -> Result<Carried, Found> {
    let outcome = engines.carry_out(call, tally)?;
    if outcome.is_ok() {
        tally.enter(call)?;
    }
    let drift = engines.look_at(tally)?;
    Ok(Carried { outcome, drift })
}

/// Spoils a note of each kind in turn, and counts those that were noticed. Refuses where one was not.
fn spoil<S: Store>(
    engine: &mut Engine<S>,
    tally: &mut Tally,
    counts: &mut Counts,
) -> Result<(), Found> {
    for spoiling in SPOILINGS {
        let was_spoilt = spoiling.try_on(engine, tally).map_err(|fault| Found {
            fault,
            place: Place::Rows,
        })?;
        if was_spoilt {
            counts.notice(spoiling);
        }
    }
    Ok(())
}

/// Makes the calls of a course on engines that nothing was done to, and counts them.
fn deal<A: Store, B: Store, C: Store>(
    engines: &mut Engines<'_, A, B, C>,
    tally: &mut Tally,
    course: Course,
    draws: &mut Draws,
    counts: &mut Counts,
) -> Result<(), Failure> {
    for made in 0..course.length {
        let call = draw(draws, &course.shape, made, &engines.rows.engine);
        let kind = CallKind::of(call, tally);
        let failure = |found: Found| Failure {
            fault: found.fault,
            place: found.place,
            run: course.shape.name,
            before: made,
            call: Some(call),
        };
        let carried = step(engines, tally, call).map_err(failure)?;
        counts.count(kind, carried.outcome, carried.drift);
        if course.spoil_after == Some(made.saturating_add(1)) {
            spoil(&mut engines.rows.engine, tally, counts).map_err(failure)?;
        }
    }
    Ok(())
}

/// One run, from empty stores, whose calls are shown tickets.
fn run(
    heap: Global,
    tickets: Tickets<'_>,
    course: Course,
    draws: &mut Draws,
    counts: &mut Counts,
) -> Result<(), Failure> {
    let shape = course.shape;
    let settings = Settings {
        reserve: shape.reserve,
    };
    let mut table = vec![in heap; BLANK; shape.room]?;
    let mut bytes = vec![in heap; 0; HEADER + ROW * shape.room]?;
    let mut counted = vec![in heap; BLANK; shape.room]?;
    // long enough for a header
    let _ = image::format(&mut bytes);
    let mut engines = Engines {
        rows: tickets.shown_to(Engine::new(RowStore::new(&mut table), settings)),
        image: tickets.shown_to(Engine::new(ImageStore::new(&mut bytes), settings)),
        counted: tickets.shown_to(Engine::new(
            Counting::new(RowStore::new(&mut counted)),
            settings,
        )),
    };
    let mut tally = Tally::new(heap, shape.reserve);
    deal(&mut engines, &mut tally, course, draws, counts)
}

/// Runs of the shapes in turn, whose calls are shown tickets.
fn run_with(
    heap: Global,
    tickets: Tickets<'_>,
    task: Task,
    draws: &mut Draws,
    counts: &mut Counts,
) -> Result<(), Failure> {
    for place in 0..task.calls.div_ceil(CALLS_EACH) {
        let before = place.saturating_mul(CALLS_EACH);
        let course = Course {
            shape: SHAPES[(place % SHAPE_COUNT) as usize],
            length: task.calls.saturating_sub(before).min(CALLS_EACH),
            spoil_after: task.spoil_after,
        };
        run(heap, tickets, course, draws, counts)?;
    }
    Ok(())
}

/// Gives a ticket up: closes a pool on an engine of its own, which nothing was done to.
fn give_up(ticket: Ending) {
    let mut table = [];
    let settings = Settings { reserve: 0 };
    let mut engine = Engine::new(RowStore::new(&mut table), settings);
    let _ = engine.close(ticket);
}

/// Makes so many calls, in runs of the shapes in turn.
pub(crate) fn run_all(
    heap: Global,
    task: Task,
    draws: &mut Draws,
    counts: &mut Counts,
) -> Result<(), Failure> {
    let collecting = Collecting::form();
    let ending = Collecting::form().end();
    let tickets = Tickets {
        collecting: &collecting,
        ending: &ending,
    };
    // no `?` here: a ticket has to be given up
    let outcome = run_with(heap, tickets, task, draws, counts);
    give_up(collecting.end());
    give_up(ending);
    outcome
}
