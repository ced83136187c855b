//! What a letter says of the record that begins with it.

ghost use Rattle.std.specs.Prelude.{◌≡◌};

use crate::kind::RecordKind;

/// What a letter chooses: the kind of the record, and how many bytes of fields follow the letter.
#[derive(Clone, Copy, PartialEq, Eq, Debug)]
pub struct Shape {
    pub kind: RecordKind,
    pub length: usize,
}

impl Shape {
    ghost use Rattle.day_records.specs.Kinds.{shape_of};

    /// The kind and the length of the record that begins with a letter, or `None` where none does.
    // char literals are the cases that choose kind and length, in one match (docs/DECISIONS.md, 52)
    pub fn of(letter: u8) -> Option<Self>
        ensures { result ≡ shape_of letter }
    {
        let (kind, length) = match char::from(letter) {
            'A' => (RecordKind::Admit, 4),
            'O' => (RecordKind::Open, 23),
            'C' => (RecordKind::Credit, 14),
            'H' => (RecordKind::Post, 10),
            'B' => (RecordKind::Buy, 19),
            'S' => (RecordKind::Sell, 19),
            'W' => (RecordKind::Withdraw, 4),
            'T' => (RecordKind::Trade, 20),
            'D' => (RecordKind::Debit, 10),
            _ => return None,
        };
        Some(Shape { kind, length })
    }
}
