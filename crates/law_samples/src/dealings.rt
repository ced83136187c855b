//! Level One's list of calls.

use full::call::Call;
use full::side::Side;
use printing::calls::{SECURITY, announce, open, trade};
use registers::kind::RegisterKind;

/// Two registers each of a buyer and a seller; three orders; trades that leave a rest and trades that
/// do not; a withdrawal; and calls that are refused.
pub(crate) fn dealings() -> [Call; 16] {
    [
        Call::Admit {
            security: SECURITY,
            ratio: 1000,
        },
        open(RegisterKind::Cash, 701, 0, 201),
        open(RegisterKind::Holding, 701, 5, 0),
        open(RegisterKind::Cash, 802, 0, 0),
        open(RegisterKind::Holding, 802, 5, 1000),
        announce(Side::Buy, 1, 701, 2, 50),
        announce(Side::Sell, 2, 802, 102, 50),
        trade(1, 1, 1, 50),
        trade(2, 1, 1, 50),
        Call::Withdraw { number: 1 },
        Call::Credit {
            code: 701,
            security: 0,
            amount: 1000,
        },
        announce(Side::Buy, 3, 701, 3, 150),
        trade(3, 3, 4, 150),
        trade(3, 3, 1, 150),
        Call::Withdraw { number: 2 },
        Call::Withdraw { number: 2 },
    ]
}
