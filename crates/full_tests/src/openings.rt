//! Openings: a full store, and what is refused.

use crate::support::{SECURITY, admit, cash, check_over_table, credit, figures, holding, opening};
use full::call::Call;
use full::opening::Opening;
use registers::kind::RegisterKind;
use registers::row::BLANK;

#[test]
fn a_store_with_room_for_one(rt: HostRuntime) {
    let steps = [
        (cash(701, 201), Ok(1)),
        (cash(702, 0), Err(2)),
        (cash(701, 0), Err(1)),
        (holding(701, SECURITY, 0), Err(7)),
        (admit(SECURITY, 1_000), Ok(1)),
        (holding(701, SECURITY, 0), Err(2)),
        (credit(702, 0, 1), Err(6)),
    ];
    let rows = [(0, figures(201, 0, 0))];
    check_over_table(&rt, &mut [BLANK; 1], &[], &steps, &rows);
}

#[test]
fn openings_at_the_ends_of_their_ranges(rt: HostRuntime) {
    let good = opening(RegisterKind::Cash, 701, 0, 0);
    let secured = Opening {
        security: SECURITY,
        ..good
    };
    let steps = [
        (Call::Open(Opening { kind: 0, ..good }), Err(5)),
        (
            Call::Open(Opening {
                kind: RegisterKind::Participant as u8,
                ..good
            }),
            Err(5),
        ),
        (Call::Open(Opening { margin: 1, ..good }), Err(5)),
        (Call::Open(secured), Err(5)),
        (holding(701, 0, 0), Err(5)),
        (holding(701, 10_000, 0), Err(5)),
        (cash(99, 0), Err(5)),
        (cash(1_000_000, 0), Err(5)),
        (cash(701, 100_000_000_000_001), Err(5)),
        (admit(9_999, 1_000), Ok(1)),
        (cash(100, 0), Ok(1)),
        (cash(999_999, 100_000_000_000_000), Ok(2)),
        (holding(100, 9_999, 1), Ok(3)),
        (holding(100, 9_998, 1), Err(7)),
    ];
    let rows = [
        (1, figures(100_000_000_000_000, 0, 0)),
        (2, figures(1, 0, 0)),
    ];
    check_over_table(&rt, &mut [BLANK; 3], &[], &steps, &rows);
}
