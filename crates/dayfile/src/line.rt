//! The lines of a listing.

ghost use Rattle.std.specs.Prelude.{Some};
ghost use Rattle.dayfile.specs.Texts.{line_text};

use crate::refusal::LineRefusal;
use day_records::kind::RecordKind;
use registers::row::Row;
use std::fmt;

/// One line of the listing of a day.
#[derive(Clone, Copy, PartialEq, Eq, Debug)]
pub enum Line {
    /// A record that was read, by its number, and what came of it: the engine's answer or a refusal.
    Record {
        number: usize,
        kind: RecordKind,
        outcome: Result<i64, LineRefusal>,
    },
    /// A record that cannot be read, by its number, why, and the place where it begins.
    Fault {
        number: usize,
        refusal: LineRefusal,
        place: usize,
    },
    /// The end of the records, and how many were read without fault.
    End {
        count: usize,
    },
    /// A register as the day left it.
    Register {
        row: Row,
    },
}

/// The line as it is printed, without its end.
impl fmt::Display for Line {
    ghost output = { λ l. Some (line_text l) };

    fn fmt<W: fmt::Write>(&self, f: &mut fmt::Formatter<W>) -> fmt::Result {
        match *self {
            Line::Record {
                number,
                kind,
                outcome,
            } => {
                let letter = kind.letter();
                match outcome {
                    Ok(answer) => write!(f, "{number} {letter} ok {answer}"),
                    Err(refusal) => write!(f, "{number} {letter} no {refusal}"),
                }
            }
            Line::Fault {
                number,
                refusal,
                place,
            } => write!(f, "{number} fault {refusal} {place}"),
            Line::End { count } => write!(f, "end {count}"),
            Line::Register { row } => write!(f, "R {row}"),
        }
    }
}
