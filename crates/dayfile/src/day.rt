//! A day carried out, line by line.

ghost use Rattle.std.specs.Prelude.{◌≡◌, ◌∷◌, ◌<◌, ◌≤◌, OnSome};
ghost use Rattle.std.specs.List.{slice_get};
ghost use Rattle.registers.specs.Changes.{OnlyAsked};

use crate::carrying::carry_out;
use crate::line::Line;
use crate::listing_stage::ListingStage;
use crate::refusal::LineRefusal;
use day_records::day_file::open;
use day_records::reader::Reader;
use full::settings::Settings;
use partial::engine::Engine;
use registers::row::Row;
use registers::store::{MOST_ROWS, Store};

/// A day on its way: the engine, the records that are still to be read, how many were read without
/// fault, and what is told next. Once the registers are told, records and count mean nothing.
#[derive(Drop)]
pub struct Day<'a, S: Store> {
    pub engine: Engine<S>,
    pub records: Reader<'a>,
    pub count: usize,
    // beside records and count, and not around them: two stages read on, and a case that held both would be taken
    // apart and made again at each line
    pub stage: ListingStage,
    ghost counted: { count ≤ records.place },
}

/// The row at a place of a store, or `None` beyond the last; the store is as it stood.
// `small` is there so that the next place is no overflow
fn row_at<S: Store>(store: &mut S, place: usize) -> Option<Row>
    ensures answer { result ≡ slice_get (S.Store.rows store.old) place }
    ensures asked { OnlyAsked S.Store.rows S.Store.capacity S.Store.made store.old store.new }
    ensures small { OnSome result (place < MOST_ROWS) }
{
    if place >= store.count() {
        return None;
    }
    store.row(place)
}

impl<'a, S: Store> Day<'a, S> {
    ghost use Rattle.std.specs.Iterator.{YieldsFirst};
    ghost use Rattle.partial.specs.State.{begin};
    ghost use Rattle.day_records.specs.Items.{header_of, items_of};
    ghost use Rattle.dayfile.specs.declared.listing_stage.ListingStage.TheVariants.{Records, Registers};
    ghost use Rattle.dayfile.specs.Lines.{lines_of, settings_in};
    ghost use Rattle.dayfile.specs.Days.{calls_in, lines_left, calls_left, Tells};

    /// A day over a store: the engine is new, with the reserve that the file's header has, and nothing
    /// of the file is carried out yet. A file whose header has a fault (30, 33) has that fault for its
    /// only line before the end.
    pub fn new(store: S, file: &'a [u8]) -> Day<'a, S>
        ensures lines { lines_left result ≡ lines_of (S.Store.rows store) (S.Store.capacity store) file.now }
        ensures calls { calls_left result ≡ calls_in (items_of file.now) }
        ensures store { result.engine.store ≡ store }
        ensures state { result.engine.state
            ≡ begin (S.Store.rows store) (S.Store.capacity store)
            (settings_in (header_of file.now)) }
    {
        let day = match open(file) {
            Ok(day) => day,
            Err(fault) => {
                return Day {
                    engine: Engine::new(store, Settings { reserve: 0 }),
                    records: Reader {
                        bytes: file,
                        place: file.len(),
                    },
                    count: 0,
                    stage: ListingStage::Header(fault),
                };
            }
        };
        let settings = Settings {
            reserve: day.reserve,
        };
        Day {
            engine: Engine::new(store, settings),
            records: day.records,
            count: 0,
            stage: ListingStage::Records,
        }
    }

    /// The next line of the listing, or `None` after the last. A record is carried out when its line
    /// is told; after the records and a fault, if there is one, come the end and the registers.
    pub fn next_line(&mut self) -> Option<Line>
        ensures { Tells self.old result self.new }
    {
        // a match: where a listing stands is a value, which a day keeps from line to line
        match self.stage {
            ListingStage::Header(fault) => {
                self.stage = ListingStage::Records;
                Some(Line::Fault {
                    number: 1,
                    refusal: LineRefusal::from(fault),
                    place: 0,
                })
            }
            ListingStage::Records => Some(self.next_record()),
            ListingStage::Registers(place) => self.next_register(place),
        }
    }

    /// Ends the day, and hands its store out again: with the rows and the room that the last line left.
    pub fn into_store(self) -> S
        ensures store { result ≡ self.entry.engine.store }
        ensures rows { S.Store.rows result ≡ self.entry.engine.state.base.rows }
        ensures room { S.Store.capacity result ≡ self.entry.engine.state.base.room }
    {
        self.into_engine().into_store()
    }

    /// Ends the day, and hands its engine out, as the last line left it.
    pub fn into_engine(self) -> Engine<S>
        ensures { result ≡ self.entry.engine }
    {
        let Day {
            engine,
            records: _,
            count: _,
            stage: _,
        } = self;
        engine
    }
}

impl<S: Store> Day<'_, S> {
    ghost use Rattle.std.specs.Iterator.{YieldsFirst};
    ghost use Rattle.day_records.specs.Views.{item_next};
    ghost use Rattle.dayfile.specs.declared.listing_stage.ListingStage.TheVariants.{Records, Registers};
    ghost use Rattle.dayfile.specs.Days.{lines_left, Advances};

    /// The line of the next record, or the end.
    fn next_record(&mut self) -> Line
        requires { self.old.stage ≡ Records }
        ensures lines { lines_left self.old ≡ result ∷ lines_left self.new }
        ensures advances { Advances self.old self.new }
    {
        let number = self.count;
        match self.records.next() {
            Some(Ok(read)) => {
                self.count = number + 1;
                let outcome = carry_out(&mut self.engine, read.record);
                Line::Record {
                    number: number + 1,
                    kind: read.record.kind(),
                    outcome,
                }
            }
            Some(Err(misread)) => Line::Fault {
                number: number + 1,
                refusal: LineRefusal::from(misread.fault),
                place: misread.place,
            },
            None => {
                self.stage = ListingStage::Registers(0);
                Line::End { count: number }
            }
        }
    }

    /// The line of the register at a place.
    fn next_register(&mut self, place: usize) -> Option<Line>
        requires { self.old.stage ≡ Registers place }
        ensures lines { YieldsFirst lines_left self.old result self.new }
        ensures advances { Advances self.old self.new }
    {
        let row = row_at(&mut self.engine.full.store, place)?;
        self.stage = ListingStage::Registers(place + 1);
        Some(Line::Register { row })
    }
}

impl<S: Store + Drop> Iterator for Day<'_, S> {
    ghost use Rattle.std.specs.Iterator.{item_count};
    ghost use Rattle.dayfile.specs.Days.{lines_left, Tells};

    type Item = Line;

    ghost next_gives = { Tells };

    ghost remaining = { item_count lines_left };

    /// The next line of the listing, as `next_line` tells it.
    fn next(&mut self) -> Option<Line> {
        self.next_line()
    }
}
