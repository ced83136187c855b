//! Records as parts of the file.

ghost use Rattle.std.specs.Prelude.{◌≡◌, length};

use crate::kind::RecordKind;

/// A record of a day file: its kind, its first field as a number, and the rest of its fields as the bytes
/// of the file in which they stand.
// each kind is a case that borrows the rest of its bytes from the file (docs/DECISIONS.md, 51)
#[derive(Clone, Copy, PartialEq, Eq, Debug)]
pub enum Record<'a> {
    /// A: security 2; then ratio 2.
    Admit { security: u16, rest: &'a [u8] },
    /// O: kind 1; then code 4, security 2, limit 8, margin 8.
    Open { kind: u8, rest: &'a [u8] },
    /// C: code 4; then security 2, amount 8.
    Credit { code: u32, rest: &'a [u8] },
    /// H: participant 2; then amount 8.
    Post { participant: u16, rest: &'a [u8] },
    /// B: mode 1; then number 4, code 4, security 2, quantity 4, price 4.
    Buy { mode: u8, rest: &'a [u8] },
    /// S: as B.
    Sell { mode: u8, rest: &'a [u8] },
    /// W: number 4; then nothing.
    Withdraw { number: u32, rest: &'a [u8] },
    /// T: number 4; then buy number 4, sell number 4, quantity 4, price 4.
    Trade { number: u32, rest: &'a [u8] },
    /// D: participant 2; then amount 8.
    Debit { participant: u16, rest: &'a [u8] },
}

impl<'a> Record<'a> {
    ghost use Rattle.day_records.specs.Kinds.{kind_of, body_of};

    /// The kind of the record.
    pub fn kind(self) -> RecordKind
        ensures { result ≡ kind_of self.entry }
    {
        match self {
            Record::Admit { .. } => RecordKind::Admit,
            Record::Open { .. } => RecordKind::Open,
            Record::Credit { .. } => RecordKind::Credit,
            Record::Post { .. } => RecordKind::Post,
            Record::Buy { .. } => RecordKind::Buy,
            Record::Sell { .. } => RecordKind::Sell,
            Record::Withdraw { .. } => RecordKind::Withdraw,
            Record::Trade { .. } => RecordKind::Trade,
            Record::Debit { .. } => RecordKind::Debit,
        }
    }

    /// How many bytes its fields have.
    pub fn length(self) -> usize
        ensures { result ≡ length (body_of self.entry) }
    {
        match self {
            Record::Open { rest, .. } | Record::Buy { rest, .. } | Record::Sell { rest, .. } => {
                1 + rest.len()
            }
            Record::Admit { rest, .. } | Record::Post { rest, .. } | Record::Debit { rest, .. } => {
                2 + rest.len()
            }
            Record::Credit { rest, .. }
            | Record::Withdraw { rest, .. }
            | Record::Trade { rest, .. } => 4 + rest.len(),
        }
    }
}
