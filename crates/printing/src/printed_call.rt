//! Calls of Level One, to be printed.

ghost use Rattle.std.specs.Prelude.{Some};
ghost use Rattle.printing.specs.Texts.{call_text};

use full::call::Call;
use full::side::Side;
use std::fmt;

/// A call, to be printed in short: without an opening's margin and an order's mode and security.
#[derive(Clone, Copy, PartialEq, Eq, Debug)]
pub struct PrintedCall(pub Call);

impl fmt::Display for PrintedCall {
    ghost output = { λ c. Some (call_text c.0) };

    fn fmt<W: fmt::Write>(&self, f: &mut fmt::Formatter<W>) -> fmt::Result {
        match self.0 {
            Call::Admit { security, ratio } => write!(f, "admit {security} {ratio}"),
            Call::Open(opening) => {
                let kind = opening.kind;
                let code = opening.code;
                let security = opening.security;
                let limit = opening.limit;
                write!(f, "open {kind} {code} {security} {limit}")
            }
            Call::Credit {
                code,
                security,
                amount,
            } => write!(f, "credit {code} {security} {amount}"),
            Call::Announce(announced) => {
                let number = announced.number;
                let account = announced.account;
                let quantity = announced.quantity;
                let price = announced.price;
                match announced.side {
                    Side::Buy => write!(f, "buy {number} {account} {quantity} at {price}"),
                    Side::Sell => write!(f, "sell {number} {account} {quantity} at {price}"),
                }
            }
            Call::Withdraw { number } => write!(f, "withdraw {number}"),
            Call::Trade(deal) => {
                let number = deal.number;
                let buy = deal.buy;
                let sell = deal.sell;
                let quantity = deal.quantity;
                let price = deal.price;
                write!(
                    f,
                    "trade {number} of {buy} and {sell}, {quantity} at {price}"
                )
            }
        }
    }
}
