//! Letters, records and what they ask for.

use crate::support::{DAY, check, check_listing};
use day_records::fault::FileFault;
use day_records::misread::Misread;
use day_records::placed_record::PlacedRecord;
use day_records::record::Record;
use day_records::shape::Shape;
use day_records::whole_file::read_all;
use dayfile::calls::call;
use dayfile::refusal::LineRefusal;
use partial::call::Call;
use std::test::Fail;

/// Every byte as the letter of a record that has no fields: nine are cut short, all others unknown.
#[test]
fn every_byte_as_a_letter(rt: HostRuntime) -> Result<(), Fail> {
    // the letters themselves are gone through
    for letter in 0..=255 {
        let file = [b'L', b'R', b'D', 0, 1, 0, 0, letter];
        let expected = match letter {
            b'A' | b'O' | b'C' | b'H' | b'B' | b'S' | b'W' | b'T' | b'D' => {
                "1 fault 32 F 7\nend 0\n"
            }
            _ => "1 fault 31 F 7\nend 0\n",
        };
        check_listing(&rt, rt.alloc(), &file, expected)?;
    }
    Ok(())
}

/// The letters A, O, C, H, B, S, W, T and D have 4, 23, 14, 10, 19, 19, 4, 20 and 10 bytes of fields.
#[test]
fn lengths_of_records(rt: HostRuntime) {
    for (letter, length) in [
        (b'A', 4),
        (b'O', 23),
        (b'C', 14),
        (b'H', 10),
        (b'B', 19),
        (b'S', 19),
        (b'W', 4),
        (b'T', 20),
        (b'D', 10),
    ] {
        check(
            &rt,
            Shape::of(letter).map(|shape| (shape.length, shape.kind.letter())),
            Some((length, char::from(letter))),
        );
    }
}

/// The two records of the day, by their places, their first fields and the rest of their bytes.
#[test]
fn records_of_a_day(rt: HostRuntime) -> Result<(), Fail> {
    let opening = Record::Open {
        kind: 1,
        rest: &DAY[9..31],
    };
    let withdrawal = Record::Withdraw {
        number: 1,
        rest: &[],
    };
    let items = read_all(rt.alloc(), &DAY)?;
    let expected = [
        Ok(PlacedRecord {
            record: opening,
            place: 7,
        }),
        Ok(PlacedRecord {
            record: withdrawal,
            place: 31,
        }),
    ];
    check(&rt, items.as_slice(), expected.as_slice());
    check(&rt, opening.length(), 23);
    check(&rt, withdrawal.length(), 4);
    check(&rt, withdrawal.kind().letter(), 'W');
    Ok(())
}

/// A fault of the header stands alone, at place 0.
#[test]
fn fault_of_the_header(rt: HostRuntime) -> Result<(), Fail> {
    let items = read_all(rt.alloc(), b"LRD")?;
    let expected = [Err(Misread {
        fault: FileFault::BadHeader,
        place: 0,
    })];
    check(&rt, items.as_slice(), expected.as_slice());
    check(&rt, FileFault::BadHeader.number(), 33);
    Ok(())
}

// numbers and letters, which the rules give: tests hold to them

/// Number and layer of the refusal that a record has in place of a call, or `None` where there is a call.
fn refused(answer: Result<Call, FileFault>) -> Option<(u8, char)> {
    answer.err().map(|fault| {
        let refusal = LineRefusal::from(fault);
        (refusal.number(), refusal.layer().letter())
    })
}

/// Fields that are cut short give no call.
#[test]
fn records_without_a_call(rt: HostRuntime) {
    let admission = Record::Admit {
        security: 5,
        rest: &[0],
    };
    let opening = Record::Open {
        kind: 1,
        rest: &DAY[9..30],
    };
    check(&rt, refused(call(admission)), Some((32, 'F')));
    check(&rt, refused(call(opening)), Some((32, 'F')));
}

/// Posting and debiting, with each length of the fields behind the participant: only the whole amount
/// gives a call, each its own.
#[test]
fn posting_and_debiting_cut_at_every_byte(rt: HostRuntime) {
    let amount = [0, 0, 0, 0, 0, 0, 1, 0xF4];
    // the lengths themselves are gone through
    for length in 0..8 {
        let posting = Record::Post {
            participant: 7,
            rest: &amount[0..length],
        };
        let debit = Record::Debit {
            participant: 7,
            rest: &amount[0..length],
        };
        check(&rt, refused(call(posting)), Some((32, 'F')));
        check(&rt, refused(call(debit)), Some((32, 'F')));
    }
    let posting = Record::Post {
        participant: 7,
        rest: &amount,
    };
    let debit = Record::Debit {
        participant: 7,
        rest: &amount,
    };
    let posted = Call::Post {
        participant: 7,
        amount: 500,
    };
    let debited = Call::Debit {
        participant: 7,
        amount: 500,
    };
    check(&rt, call(posting), Ok(posted));
    check(&rt, call(debit), Ok(debited));
}

#[test]
fn numbers_of_faults(rt: HostRuntime) {
    check(&rt, FileFault::TooLong.number(), 30);
    check(&rt, FileFault::UnknownLetter.number(), 31);
    check(&rt, FileFault::CutShort.number(), 32);
    check(&rt, FileFault::BadHeader.number(), 33);
}
