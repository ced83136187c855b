//! Days with partial collateral over a byte image.

use crate::support::check;
use dayfile::listing::listing;
use registers::figures::Figures;
use registers::image;
use registers::image::ImageStore;
use registers::key::Key;
use registers::row::Row;
use registers::store::Store;
use std::test::Fail;

/// A day of 146 bytes: security 5 is admitted under the ratio 1,000, and account 701's cash, its holding and
/// participant 7's limit are opened, the last with 1,000 and the margin 400. Account 701 buys 10 at 123,456 in
/// mode 2, which the limit covers only once 635 are posted; then 1 is to be debited.
const COVERED: [u8; 146] = [
    0x4C, 0x52, 0x44, 0, 1, 0, 200, // the header
    0x41, 0, 5, 3, 0xE8, // the security
    0x4F, 1, 0, 0, 2, 0xBD, 0, 0, 0, 0, 0, 0, 0, 0, 0, 0, 0, 0, 0, 0, 0, 0, 0, 0, // cash
    0x4F, 2, 0, 0, 2, 0xBD, 0, 5, 0, 0, 0, 0, 0, 0, 0, 0, 0, 0, 0, 0, 0, 0, 0, 0, // holding
    0x4F, 3, 0, 0, 0, 7, 0, 0, 0, 0, 0, 0, 0, 0, 3, 0xE8, 0, 0, 0, 0, 0, 0, 1, 0x90, // limit
    0x42, 2, 0, 0, 0, 1, 0, 0, 2, 0xBD, 0, 5, 0, 0, 0, 10, 0, 1, 0xE2, 0x40, // the order
    0x48, 0, 7, 0, 0, 0, 0, 0, 0, 2, 0x7B, // 635
    0x42, 2, 0, 0, 0, 1, 0, 0, 2, 0xBD, 0, 5, 0, 0, 0, 10, 0, 1, 0xE2, 0x40, // the order
    0x44, 0, 7, 0, 0, 0, 0, 0, 0, 0, 1, // 1
];

/// A day of 54 bytes: security 5 is admitted as before, 65 are posted for participant 7 and 64 debited, and
/// account 701 buys 1 at 123,456 in mode 2.
const FOLLOWING: [u8; 54] = [
    0x4C, 0x52, 0x44, 0, 1, 0, 200, // the header
    0x41, 0, 5, 3, 0xE8, // the security
    0x48, 0, 7, 0, 0, 0, 0, 0, 0, 0, 65, // 65
    0x44, 0, 7, 0, 0, 0, 0, 0, 0, 0, 64, // 64
    0x42, 2, 0, 0, 0, 1, 0, 0, 2, 0xBD, 0, 5, 0, 0, 0, 1, 0, 1, 0xE2, 0x40, // the order
];

/// Risk(10, 123,456, 1,000) is 1,234.56, up to 1,235: with the margin 1,635, to which the limit has to be raised. The
/// image keeps limit, margin, block and collateral, and the next day, which has no order, begins with them: 1,700
/// less 64 exceeds 1,635, and Risk(1, 123,456, 1,000) = 123 is above the 1 that is left.
#[test]
fn two_days_over_one_image(rt: HostRuntime) -> Result<(), Fail> {
    let mut bytes = [0; 100];
    check(&rt, image::format(&mut bytes), Ok(()));
    let text = listing(rt.alloc(), ImageStore::new(&mut bytes), &COVERED)?;
    check(
        &rt,
        text.as_str(),
        "1 A ok 1\n2 O ok 1\n3 O ok 2\n4 O ok 3\n5 B no 10 L\n6 H ok 1635\n7 B ok 1235\n8 D no 21 L\nend 8\nR 1 701 0 0 0 0\nR 2 701 5 0 0 0\nR 3 7 0 1635 1635 1635\n",
    );
    let text = listing(rt.alloc(), ImageStore::new(&mut bytes), &FOLLOWING)?;
    check(
        &rt,
        text.as_str(),
        "1 A ok 1\n2 H ok 1700\n3 D ok 1636\n4 B no 10 L\nend 4\nR 1 701 0 0 0 0\nR 2 701 5 0 0 0\nR 3 7 0 1636 1635 1636\n",
    );
    let mut store = ImageStore::new(&mut bytes);
    let expected = Figures {
        limit: 1_636,
        blocked: 1_635,
        third: 1_636,
    };
    check(&rt, store.row(2).map(|row| row.figures), Some(expected));
    Ok(())
}

/// A row without figures but for the blocked one.
fn blocked_row(kind: u8, code: u32, security: u16, blocked: i64) -> Row {
    Row {
        key: Key {
            kind,
            code,
            security,
        },
        figures: Figures {
            limit: 0,
            blocked,
            third: 0,
        },
    }
}

/// An image may bring a participant's limit that is out of range, as no day leaves one: 25 for whatever looks
/// at it, and all stays.
#[test]
fn a_limit_out_of_range(rt: HostRuntime) -> Result<(), Fail> {
    let mut bytes = [0; 100];
    check(&rt, image::format(&mut bytes), Ok(()));
    let mut store = ImageStore::new(&mut bytes);
    check(&rt, store.add(blocked_row(1, 701, 0, 0)), Ok(()));
    check(&rt, store.add(blocked_row(2, 701, 5, 0)), Ok(()));
    let limit = blocked_row(3, 7, 0, 1_000_000_000_000_001);
    check(&rt, store.add(limit), Ok(()));
    let text = listing(rt.alloc(), store, &FOLLOWING)?;
    check(
        &rt,
        text.as_str(),
        "1 A ok 1\n2 H no 25 S\n3 D no 25 S\n4 B no 25 S\nend 4\nR 1 701 0 0 0 0\nR 2 701 5 0 0 0\nR 3 7 0 0 1000000000000001 0\n",
    );
    Ok(())
}
