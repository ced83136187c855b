//! Reading a day file record by record.

ghost use Rattle.std.specs.Prelude.{◌≡◌, ◌<◌, ◌≤◌, Some, IsSome, length, slice_index};
ghost use Rattle.std.specs.Iterator.{item_count};
ghost use Rattle.day_records.specs.Items.{item_at};
ghost use Rattle.day_records.specs.Kinds.{kind_for, record_bytes};
ghost use Rattle.day_records.specs.Views.{item_as, told_as, items_left, Reads};

use crate::fault::FileFault;
use crate::misread::Misread;
use crate::placed_record::PlacedRecord;
use crate::record::Record;
use crate::shape::Shape;

/// The records of a day file that are still to be read: the file, and the place in it at which the
/// next record begins, counted from 0. Past the end nothing is left.
#[derive(Clone, Copy, PartialEq, Eq, Debug)]
pub struct Reader<'a> {
    pub bytes: &'a [u8],
    pub place: usize,
}

/// The record that bytes are: a letter that a record begins with, and as its fields whatever follows,
/// which is never shorter than a first field.
fn record<'a>(bytes: &'a [u8]) -> Record<'a>
    requires known { IsSome (kind_for (slice_index bytes.now 0)) }
    requires long { 5 ≤ length bytes.now }
    ensures { record_bytes result ≡ bytes.now }
{
    match bytes {
        [b'A', s0, s1, rest @ ..] => Record::Admit {
            security: u16::from_be_bytes([*s0, *s1]),
            rest,
        },
        [b'O', kind, rest @ ..] => Record::Open { kind: *kind, rest },
        [b'C', c0, c1, c2, c3, rest @ ..] => Record::Credit {
            code: u32::from_be_bytes([*c0, *c1, *c2, *c3]),
            rest,
        },
        [b'H', p0, p1, rest @ ..] => Record::Post {
            participant: u16::from_be_bytes([*p0, *p1]),
            rest,
        },
        [b'B', mode, rest @ ..] => Record::Buy { mode: *mode, rest },
        [b'S', mode, rest @ ..] => Record::Sell { mode: *mode, rest },
        [b'W', n0, n1, n2, n3, rest @ ..] => Record::Withdraw {
            number: u32::from_be_bytes([*n0, *n1, *n2, *n3]),
            rest,
        },
        [b'T', n0, n1, n2, n3, rest @ ..] => Record::Trade {
            number: u32::from_be_bytes([*n0, *n1, *n2, *n3]),
            rest,
        },
        [b'D', p0, p1, rest @ ..] => Record::Debit {
            participant: u16::from_be_bytes([*p0, *p1]),
            rest,
        },
        _ => unreachable!(),
    }
}

/// The record that begins with the first of these bytes, which lies at a place of the file. Refuses a
/// letter that no record begins with, and bytes that end within the record.
fn placed<'a>(bytes: &'a [u8], place: usize) -> Result<PlacedRecord<'a>, Misread>
    requires { 0 < length bytes.now }
    ensures { Some (item_as result) ≡ item_at place bytes.now }
{
    let shape = Shape::of(bytes[0]).ok_or(Misread {
        fault: FileFault::UnknownLetter,
        place,
    })?;
    let whole = bytes.get(..=shape.length).ok_or(Misread {
        fault: FileFault::CutShort,
        place,
    })?;
    Ok(PlacedRecord {
        record: record(whole),
        place,
    })
}

impl<'a> Iterator for Reader<'a> {
    type Item = Result<PlacedRecord<'a>, Misread>;

    ghost next_gives = { Reads };

    ghost remaining = { item_count items_left };

    /// The next record with its place, the fault that stops the reading, or `None` at the end of the
    /// file. After a fault nothing is left to read.
    fn next(&mut self) -> Option<Result<PlacedRecord<'a>, Misread>> {
        let place = self.place;
        let bytes = self.bytes;
        if place >= bytes.len() {
            return None;
        }
        let told = placed(&bytes[place..], place);
        self.place = match told {
            Ok(read) => place + 1 + read.record.length(),
            Err(_) => bytes.len(),
        };
        Some(told)
    }
}
