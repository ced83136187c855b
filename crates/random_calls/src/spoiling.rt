//! Notes that are spoilt on purpose, to show that the looker finds each.

use crate::any_note::AnyNote;
use crate::fault::Fault;
use crate::law::{drift_of, look_at};
use crate::note::Note;
use crate::opened::Opened;
use crate::owed::Owed;
use crate::tally::Tally;
use full::announcement::Announcement;
use partial::obligation::Obligation;
use pool::engine::Engine;
use registers::figures::Figures;
use registers::key::Key;
use registers::kind::RegisterKind;
use registers::store::Store;

/// What of a note is spoilt.
#[derive(Clone, Copy, PartialEq, Eq, Debug)]
pub enum Spoiling {
    /// A register's key.
    Key,
    /// The opening limit of cash that is below the reserve: a limit below it is there for this note alone.
    Limit,
    /// A register's opening blocked figure.
    Blocked,
    /// How often a trade left a rest on a register that is off.
    Rests,
    /// The price at which an order with a rest was announced.
    Price,
    /// The ratio of an order with a rest.
    Ratio,
    /// What was traded of an order.
    Traded,
    /// What an order's withdrawal gave back.
    Back,
    /// The money of an obligation of which a leg is owed.
    Money,
    /// That an obligation's securities were delivered.
    Delivery,
    /// That an obligation's money was paid.
    Payment,
}

/// How many ways to spoil a note there are.
pub const SPOILING_COUNT: usize = 11;

/// All of them, in the order of their numbers.
pub const SPOILINGS: [Spoiling; SPOILING_COUNT] = [
    Spoiling::Key,
    Spoiling::Limit,
    Spoiling::Blocked,
    Spoiling::Rests,
    Spoiling::Price,
    Spoiling::Ratio,
    Spoiling::Traded,
    Spoiling::Back,
    Spoiling::Money,
    Spoiling::Delivery,
    Spoiling::Payment,
];

impl Spoiling {
    /// What is spoilt, to be printed.
    pub(crate) fn name(self) -> &'static str {
        match self {
            Spoiling::Key => "a register's key",
            Spoiling::Limit => "an opening limit",
            Spoiling::Blocked => "an opening blocked figure",
            Spoiling::Rests => "trades that left a rest",
            Spoiling::Price => "an order's price",
            Spoiling::Ratio => "an order's ratio",
            Spoiling::Traded => "a traded part",
            Spoiling::Back => "what was given back",
            Spoiling::Money => "an obligation's money",
            Spoiling::Delivery => "a delivery",
            Spoiling::Payment => "a payment",
        }
    }

    /// The note of a register, spoilt, if a register with these figures shows it.
    fn of_register(self, opened: Opened, figures: Figures, reserve: u16) -> Option<Opened> {
        let reserve = u64::from(reserve);
        let allowance = opened.allowance();
        let raised = figures.limit.saturating_add_unsigned(allowance);
        match self {
            Spoiling::Key => Some(Opened {
                key: Key {
                    code: opened.key.code.saturating_add(1),
                    ..opened.key
                },
                ..opened
            }),
            Spoiling::Limit
                if opened.key.is(RegisterKind::Cash)
                    && raised.saturating_sub_unsigned(reserve) < 0 => {
                Some(Opened {
                    limit: reserve,
                    ..opened
                })
            }
            Spoiling::Blocked => Some(Opened {
                blocked: opened
                    .blocked
                    .saturating_add(allowance)
                    .saturating_add(allowance)
                    .saturating_add(1),
                ..opened
            }),
            Spoiling::Rests if drift_of(figures, opened).is_ok_and(|drift| drift.kopecks > 0) => {
                Some(Opened {
                    trades_leaving_rest: 0,
                    ..opened
                })
            }
            _ => None,
        }
    }

    /// The note of an order, spoilt, if it has what is to be spoilt.
    fn of_order(self, note: Note) -> Option<Note> {
        let announced = note.announced;
        match self {
            Spoiling::Price if note.rest() > 0 => Some(Note {
                announced: Announcement {
                    price: announced.price.saturating_add(1),
                    ..announced
                },
                ..note
            }),
            Spoiling::Ratio if note.rest() > 0 => Some(Note {
                ratio: note.ratio.saturating_add(1),
                ..note
            }),
            Spoiling::Traded if note.traded > 0 => Some(Note {
                traded: note.traded.saturating_sub(1),
                ..note
            }),
            Spoiling::Back if note.back > 0 => Some(Note {
                back: note.back.saturating_sub(1),
                ..note
            }),
            _ => None,
        }
    }

    /// The note of an obligation, spoilt, if it has what is to be spoilt.
    fn of_owed(self, owed: Owed) -> Option<Owed> {
        let obligation = owed.obligation;
        match self {
            Spoiling::Money if owed.left().is_some() => Some(Owed {
                obligation: Obligation {
                    money: obligation.money.saturating_add(1),
                    ..obligation
                },
                ..owed
            }),
            Spoiling::Delivery if owed.delivered => Some(Owed {
                delivered: false,
                ..owed
            }),
            Spoiling::Payment if owed.paid => Some(Owed {
                paid: false,
                ..owed
            }),
            _ => None,
        }
    }

    /// The first note that can be spoilt so, spoilt.
    fn spoilt<S: Store>(self, tally: &Tally, store: &mut S) -> Option<AnyNote> {
        for (place, opened) in tally.opened.iter().enumerate() {
            let figures = store.row(place)?.figures;
            if let Some(opened) = self.of_register(*opened, figures, tally.reserve) {
                return Some(AnyNote::Register(place, opened));
            }
        }
        for note in tally.notes.values() {
            if let Some(note) = self.of_order(*note) {
                return Some(AnyNote::Order(note));
            }
        }
        for owed in tally.owed.values() {
            if let Some(owed) = self.of_owed(*owed) {
                return Some(AnyNote::Owed(owed));
            }
        }
        None
    }

    /// Spoils a note, looks at an engine, and mends the note; answers whether there was one to be spoilt. Refuses
    /// where the looker finds nothing.
    pub(crate) fn try_on<S: Store>(
        self,
        engine: &mut Engine<S>,
        tally: &mut Tally,
    ) -> Result<bool, Fault> {
        let Some(spoilt) = self.spoilt(tally, &mut engine.partial.full.store) else {
            return Ok(false);
        };
        let Some(note) = tally.exchange(spoilt) else {
            return Ok(false);
        };
        let looked = look_at(engine, tally);
        let _ = tally.exchange(note);
        match looked {
            Ok(_) => Err(Fault::Unnoticed),
            Err(_) => Ok(true),
        }
    }
}
