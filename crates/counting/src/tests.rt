//! What is counted of real calls, and which bytes they leave.

use crate::counting::Counting;
use crate::full_calls::{counted_call, counted_run, counted_trade};
use crate::full_images::{credited_store, image_call};
use crate::partial_calls;
use full::announcement::Announcement;
use full::call::Call;
use full::deal::Deal;
use full::engine::Engine;
use full::mode::Mode;
use full::opening::Opening;
use full::settings::Settings;
use full::side::Side;
use plans::refusal::Refusal;
use registers::figures::Figures;
use registers::image;
use registers::image::ImageStore;
use registers::kind::RegisterKind;
use registers::row::BLANK;
use registers::store::Store;
use registers::table::RowStore;
use std::process::Abort;

/// A call, its answer or the number of its refusal, and how many changes are counted after it.
type Expected = (Call, Result<i64, u8>, u64);

const SETTINGS: Settings = Settings { reserve: 200 };

const ADMISSION: Call = Call::Admit {
    security: 5,
    ratio: 1_000,
};

/// A trade of 1 at 50 between orders 1 and 2.
const DEAL: Deal = Deal {
    number: 1,
    buy: 1,
    sell: 2,
    quantity: 1,
    price: 50,
};

fn open(kind: RegisterKind, code: u32, security: u16, limit: u64) -> Call {
    Call::Open(Opening {
        kind: kind as u8,
        code,
        security,
        limit,
        margin: 0,
    })
}

fn order(side: Side, number: u32, account: u32, quantity: u32, price: u32) -> Announcement {
    Announcement {
        side,
        mode: Mode::Full as u8,
        number,
        account,
        security: 5,
        quantity,
        price,
    }
}

/// What both levels' dealings begin with: a security, and cash and a holding of two accounts.
fn opened(seller: u32) -> [Expected; 5] {
    [
        (ADMISSION, Ok(1), 0),
        (open(RegisterKind::Cash, 701, 0, 1_000), Ok(1), 1),
        (open(RegisterKind::Holding, 701, 5, 0), Ok(2), 2),
        (open(RegisterKind::Cash, seller, 0, 0), Ok(3), 3),
        (open(RegisterKind::Holding, seller, 5, 10), Ok(4), 4),
    ]
}

/// A trade puts four rows; an order whose block is 0, its withdrawal and a refused call put none.
fn traded() -> [Expected; 8] {
    [
        (Call::Announce(order(Side::Buy, 1, 701, 1, 50)), Ok(1), 5),
        (Call::Announce(order(Side::Sell, 2, 802, 2, 50)), Ok(2), 6),
        (Call::Trade(DEAL), Ok(1), 10),
        (Call::Trade(DEAL), Err(12), 10),
        (Call::Announce(order(Side::Buy, 3, 701, 1, 49)), Ok(0), 10),
        (Call::Withdraw { number: 3 }, Ok(0), 10),
        (open(RegisterKind::Cash, 703, 0, 0), Err(2), 10),
        (Call::Withdraw { number: 2 }, Ok(1), 11),
    ]
}

fn told(outcome: Result<i64, Refusal>) -> Result<i64, u8> {
    outcome.map_err(|refusal| refusal.number())
}

/// Makes calls in their order, and compares each outcome and the count after it with what is expected.
fn check<S: Store>(rt: &impl Abort, engine: &mut Engine<Counting<S>>, steps: &[Expected]) {
    for (place, (call, outcome, changes)) in steps.iter().enumerate() {
        let found = told(counted_call(engine, *call));
        assert_eq!(rt; found, *outcome, "call {place}");
        assert_eq!(rt; engine.store.changes(), *changes, "call {place}");
    }
}

/// The same at Level Two.
fn check_partial<S: Store>(
    rt: &impl Abort,
    engine: &mut partial::engine::Engine<Counting<S>>,
    steps: &[Expected],
) {
    for (place, (call, outcome, changes)) in steps.iter().enumerate() {
        let found = told(partial_calls::counted_call(engine, (*call).into()));
        assert_eq!(rt; found, *outcome, "call {place}");
        assert_eq!(rt; engine.full.store.changes(), *changes, "call {place}");
    }
}

#[test]
fn over_a_table(rt: HostRuntime) {
    let mut table = [BLANK; 4];
    let mut engine = Engine::new(Counting::new(RowStore::new(&mut table)), SETTINGS);
    check(&rt, &mut engine, &opened(802));
    check(&rt, &mut engine, &traded());
    assert_eq!(rt; counted_trade(&mut engine, DEAL), 11);
    let credit = Call::Credit {
        code: 701,
        security: 0,
        amount: 1,
    };
    let calls = [credit, Call::Withdraw { number: 9 }, credit];
    let mut outcomes = [Ok(0); 3];
    assert_eq!(rt; counted_run(&mut engine, &calls, &mut outcomes), 13);
    assert_eq!(rt; outcomes, [Ok(1_000), Err(Refusal::NoOrder), Ok(1_001)]);
}

/// The first row: cash of account 701, with a limit of 1,000.
const ROW: [u8; 31] = [
    1, 0, 0, 0x02, 0xBD, 0, 0, 0, 0, 0, 0, 0, 0, 0x03, 0xE8, 0, 0, 0, 0, 0, 0, 0, 0, 0, 0, 0, 0, 0,
    0, 0, 0,
];

#[test]
fn over_an_image(rt: HostRuntime) {
    let mut bytes = [0; 131];
    assert!(rt; image::format(&mut bytes).is_ok());
    let store = Counting::new(ImageStore::new(&mut bytes));
    let mut engine = Engine::new(store, SETTINGS);
    check(&rt, &mut engine, &opened(802));
    check(&rt, &mut engine, &traded());
    let outcome = image_call(&mut engine, Call::Withdraw { number: 9 });
    assert_eq!(rt; told(outcome), Err(11));
    assert_eq!(rt; engine.store.changes(), 11);
    let store = engine.into_store().into_inner();
    let _ = credited_store(store, 701, 0, 1);
    assert!(rt; &bytes[7..38] == ROW.as_slice());
}

/// A trade between two accounts of one participant puts one row, the participant's limit.
#[test]
fn of_one_participant(rt: HostRuntime) {
    let mut bytes = [0; 162];
    assert!(rt; image::format(&mut bytes).is_ok());
    let store = Counting::new(ImageStore::new(&mut bytes));
    let mut engine = partial::engine::Engine::new(store, SETTINGS);
    let buy = Announcement {
        mode: Mode::Partial as u8,
        ..order(Side::Buy, 1, 701, 10, 123_456)
    };
    let sell = Announcement {
        mode: Mode::Partial as u8,
        ..order(Side::Sell, 2, 702, 10, 123_456)
    };
    let limited = [
        (open(RegisterKind::Participant, 7, 0, 10_000), Ok(5), 5),
        (Call::Announce(buy), Ok(1_235), 6),
        (Call::Announce(sell), Ok(1_235), 7),
    ];
    check_partial(&rt, &mut engine, &opened(702));
    check_partial(&rt, &mut engine, &limited);
    let deal = Deal {
        quantity: 10,
        price: 123_456,
        ..DEAL
    };
    assert_eq!(rt; partial_calls::image_trade(&mut engine, deal), 8);
    check_partial(&rt, &mut engine, &[(Call::Trade(deal), Err(12), 8)]);
    let limit = Figures {
        limit: 7_530,
        blocked: 0,
        third: 10_000,
    };
    let figures = engine.full.store.row(4).map(|row| row.figures);
    assert_eq!(rt; figures, Some(limit));
}
