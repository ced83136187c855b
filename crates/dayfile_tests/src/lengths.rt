//! Files cut at every byte, and files of the greatest length.

use crate::support::{DAY, check_listing, list};
use std::alloc::{AllocError, Global};
use std::test::Fail;

/// What the first `length` bytes of the day are listed as.
fn expected(length: usize) -> &'static str {
    match length {
        0..=6 => "1 fault 33 F 0\nend 0\n",
        7 => "end 0\n",
        8..=30 => "1 fault 32 F 7\nend 0\n",
        31 => "1 O ok 1\nend 1\nR 1 701 0 201 0 0\n",
        32..=35 => "1 O ok 1\n2 fault 32 F 31\nend 1\nR 1 701 0 201 0 0\n",
        _ => "1 O ok 1\n2 W no 11 L\nend 2\nR 1 701 0 201 0 0\n",
    }
}

#[test]
fn a_day_cut_at_every_byte(rt: HostRuntime) -> Result<(), Fail> {
    // the lengths themselves are gone through
    for length in 0..37 {
        check_listing(&rt, rt.alloc(), &DAY[0..length], expected(length))?;
    }
    Ok(())
}

/// A day of 53 bytes: participant 7's limit is opened with 100 and the margin 40, 50 are posted, and 109 are
/// debited. The header is 7 bytes, the opening 24, the posting and the debit 11 each.
const COLLATERAL: [u8; 53] = [
    0x4C, 0x52, 0x44, 0, 1, 0, 200, 0x4F, 3, 0, 0, 0, 7, 0, 0, 0, 0, 0, 0, 0, 0, 0, 100, 0, 0, 0,
    0, 0, 0, 0, 40, 0x48, 0, 7, 0, 0, 0, 0, 0, 0, 0, 50, 0x44, 0, 7, 0, 0, 0, 0, 0, 0, 0, 109,
];

/// What the first `length` bytes of that day are listed as.
fn expected_of_collateral(length: usize) -> &'static str {
    match length {
        0..=6 => "1 fault 33 F 0\nend 0\n",
        7 => "end 0\n",
        8..=30 => "1 fault 32 F 7\nend 0\n",
        31 => "1 O ok 1\nend 1\nR 3 7 0 100 40 100\n",
        32..=41 => "1 O ok 1\n2 fault 32 F 31\nend 1\nR 3 7 0 100 40 100\n",
        42 => "1 O ok 1\n2 H ok 150\nend 2\nR 3 7 0 150 40 150\n",
        43..=52 => "1 O ok 1\n2 H ok 150\n3 fault 32 F 42\nend 2\nR 3 7 0 150 40 150\n",
        _ => "1 O ok 1\n2 H ok 150\n3 D ok 41\nend 3\nR 3 7 0 41 40 41\n",
    }
}

#[test]
fn collateral_cut_at_every_byte(rt: HostRuntime) -> Result<(), Fail> {
    // the lengths themselves are gone through
    for length in 0..54 {
        let expected = expected_of_collateral(length);
        check_listing(&rt, rt.alloc(), &COLLATERAL[0..length], expected)?;
    }
    Ok(())
}

/// A file of a length: the header, and then withdrawals of order 0, of which the last may be cut.
fn withdrawals(heap: Global, length: usize) -> Result<Vec<u8>, AllocError> {
    (0..length)
        .map(|place| match place {
            0 => b'L',
            1 => b'R',
            2 => b'D',
            4 => 1,
            _ if place > 6 && place % 5 == 2 => b'W',
            _ => 0,
        })
        .collect(heap)
}

/// 65,536 bytes are the header, 13,105 withdrawals and 4 bytes of one more, which begins at 65,532.
#[test]
fn a_file_of_the_greatest_length(rt: HostRuntime) -> Result<(), Fail> {
    let file = withdrawals(rt.alloc(), 65_536)?;
    let text = list(rt.alloc(), file.as_slice())?;
    assert!(rt; text.as_str().starts_with("1 W no 11 L\n2 W no 11 L\n"));
    assert!(rt;
        text.as_str()
            .ends_with("\n13105 W no 11 L\n13106 fault 32 F 65532\nend 13105\n")
    );
    Ok(())
}

#[test]
fn a_file_without_a_rest(rt: HostRuntime) -> Result<(), Fail> {
    let file = withdrawals(rt.alloc(), 65_532)?;
    let text = list(rt.alloc(), file.as_slice())?;
    assert!(rt; text.as_str().ends_with("\n13105 W no 11 L\nend 13105\n"));
    Ok(())
}

#[test]
fn a_file_of_one_byte_more(rt: HostRuntime) -> Result<(), Fail> {
    let file = withdrawals(rt.alloc(), 65_537)?;
    check_listing(&rt, rt.alloc(), file.as_slice(), "1 fault 30 F 0\nend 0\n")
}
