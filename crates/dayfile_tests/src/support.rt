//! What the tests share.

use dayfile::listing::listing;
use registers::row::BLANK;
use registers::table::RowStore;
use std::alloc::{AllocError, Global};
use std::fmt::Debug;
use std::process::Abort;
use std::test::Fail;

/// A day of 36 bytes: cash of account 701 is opened with limit 201, and an order that is not live is
/// withdrawn. The header is 7 bytes, the opening 24, the withdrawal 5.
pub const DAY: [u8; 36] = [
    0x4C, 0x52, 0x44, 0, 1, 0, 200, 0x4F, 1, 0, 0, 2, 0xBD, 0, 0, 0, 0, 0, 0, 0, 0, 0, 201, 0, 0,
    0, 0, 0, 0, 0, 0, 0x57, 0, 0, 0, 1,
];

/// The listing of a file over an empty table of 16 rows.
pub(crate) fn list(heap: Global, file: &[u8]) -> Result<String, AllocError> {
    let mut table = [BLANK; 16];
    listing(heap, RowStore::new(&mut table), file)
}

/// Compares what is found with what is expected: one function, since every comparison is proved where it
/// stands.
pub(crate) fn check<T: Copy + PartialEq + Debug>(rt: &impl Abort, found: T, expected: T) {
    assert_eq!(rt; found, expected);
}

/// Compares the listing of a file with what is expected.
pub(crate) fn check_listing(
    rt: &impl Abort,
    heap: Global,
    file: &[u8],
    expected: &str,
) -> Result<(), Fail> {
    let text = list(heap, file)?;
    check(rt, text.as_str(), expected);
    Ok(())
}
