//! Calls that are handed down, by the engine's own methods and by the engine below it.

use crate::support::{
    SECURITY, SETTINGS, Step, admit, buy, cash, check, check_rows, credit, debit, figures, holding,
    limit, opened, order, post, sell, trade, withdraw,
};
use full::call::Call as FullCall;
use full::mode::Mode;
use full::side::Side;
use partial::call::Call as PartialCall;
use partial::engine::Engine as PartialEngine;
use partial::obligation::Obligation;
use partial::stage::Stage;
use plans::machine::Machine;
use plans::refusal::Refusal;
use pool::call::Call;
use pool::engine::Engine;
use registers::row::BLANK;
use registers::store::Store;
use registers::table::RowStore;
use std::process::Abort;

/// Makes a call of the level below by the engine's own method.
fn handed<S: Store>(engine: &mut Engine<S>, call: PartialCall) -> Result<i64, Refusal> {
    match call {
        PartialCall::Full(FullCall::Admit { security, ratio }) => engine.admit(security, ratio),
        PartialCall::Full(FullCall::Open(opening)) => engine.open(opening),
        PartialCall::Full(
            FullCall::Credit {
                code,
                security,
                amount,
            },
        ) => engine.credit(code, security, amount),
        PartialCall::Full(FullCall::Announce(announcement)) => engine.announce(announcement),
        PartialCall::Full(FullCall::Withdraw { number }) => engine.withdraw(number),
        PartialCall::Full(FullCall::Trade(deal)) => engine.trade(deal),
        PartialCall::Post {
            participant,
            amount,
        } => engine.post(participant, amount),
        PartialCall::Debit {
            participant,
            amount,
        } => engine.debit(participant, amount),
    }
}

/// Makes calls on both engines, and compares each answer with what is expected.
fn make_on_both<S: Store>(
    rt: &impl Abort,
    engine: &mut Engine<S>,
    below: &mut PartialEngine<S>,
    steps: &[Step],
) {
    for (place, (call, expected)) in steps.iter().enumerate() {
        let Call::Partial(call) = *call else {
            panic!(rt; "call {place} is not of the level below");
        };
        let answer = handed(engine, call).map_err(|refusal| refusal.number());
        assert_eq!(rt; answer, *expected, "call {place}");
        let answer = below.carry_out(call).map_err(|refusal| refusal.number());
        assert_eq!(rt; answer, *expected, "call {place} of the engine below");
    }
}

/// Calls of every kind, accepted and refused, after those that open six registers in a table of six.
fn several() -> [Step; 30] {
    [
        (admit(SECURITY, 1), Err(3)),
        (admit(0, 1), Err(5)),
        (cash(701, 1), Err(1)),
        (holding(701, 1), Err(1)),
        (limit(7, 1), Err(1)),
        (cash(703, 1), Err(2)),
        (limit(9, 1), Err(2)),
        (credit(802, 0, 50), Ok(50)),
        (credit(99, 0, 50), Err(5)),
        (credit(903, 0, 50), Err(6)),
        (post(7, 10), Ok(1_010)),
        (post(0, 10), Err(5)),
        (debit(7, 10), Ok(1_000)),
        (debit(7, 1_000), Err(21)),
        (debit(7, 1_001), Err(20)),
        (buy(1, 701, 10, 1_000), Ok(10)),
        (sell(2, 802, 10, 1_000), Ok(10)),
        (buy(2, 701, 10, 1_000), Err(8)),
        (sell(3, 802, 1_000, 1_000), Err(10)),
        (trade(1, 1, 2, 4, 1_000), Ok(40)),
        (trade(1, 1, 2, 4, 1_000), Err(12)),
        (trade(2, 1, 2, 7, 1_000), Err(16)),
        (withdraw(2), Ok(6)),
        (withdraw(2), Err(11)),
        (order(Mode::Full, Side::Buy, 3, 701, 1, 1_000), Ok(10)),
        (order(Mode::Full, Side::Sell, 4, 802, 1, 1_000), Ok(1)),
        (trade(2, 1, 3, 1, 1_000), Err(13)),
        (trade(2, 1, 4, 1, 1_000), Err(14)),
        (trade(2, 3, 4, 1, 1_000), Ok(10)),
        (withdraw(1), Ok(6)),
    ]
}

#[test]
fn as_the_engine_below(rt: HostRuntime) {
    let mut table = [BLANK; 6];
    let mut table_below = [BLANK; 6];
    let mut engine = Engine::new(RowStore::new(&mut table), SETTINGS);
    let mut below = PartialEngine::new(RowStore::new(&mut table_below), SETTINGS);
    make_on_both(&rt, &mut engine, &mut below, &opened());
    make_on_both(&rt, &mut engine, &mut below, &several());
    let owed = Obligation {
        number: 1,
        seller: 802,
        buyer: 701,
        security: SECURITY,
        quantity: 4,
        money: 40,
        stage: Stage::BothOwed,
    };
    let left = [
        (0, figures(9_990, 0, 0)),
        (1, figures(1, 0, 0)),
        (2, figures(60, 0, 0)),
        (3, figures(199, 0, 0)),
        (4, figures(996, 0, 1_000)),
        (5, figures(996, 0, 1_000)),
    ];
    check(&rt, engine.partial.obligations.table[0], Some(owed));
    check(&rt, below.obligations.table[0], Some(owed));
    check(&rt, engine.partial.obligations.free_place(), Some(1));
    check(&rt, below.obligations.free_place(), Some(1));
    check_rows(&rt, &mut engine.partial.full.store, &left);
    check_rows(&rt, &mut below.full.store, &left);
}
