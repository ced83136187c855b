//! The kinds of calls that are counted.

use crate::tally::Tally;
use full::announcement::Announcement;
use full::call::Call as FullCall;
use full::mode::Mode;
use full::opening::Opening;
use partial::call::Call as PartialCall;
use pool::call::Call;
use registers::kind::RegisterKind;

/// A kind of calls. A trade is one of the mode of its first order, as that was noted.
#[derive(Clone, Copy, PartialEq, Eq, Debug)]
pub enum CallKind {
    Admit,
    OpenCash,
    OpenHolding,
    OpenLimit,
    OpenOther,
    Credit,
    Post,
    Debit,
    AnnounceFull,
    AnnouncePartial,
    AnnounceOther,
    Withdraw,
    TradeFull,
    TradePartial,
    TradeOther,
    Earmark,
    Deliver,
    Pay,
    Close,
}

/// How many kinds there are.
pub const KIND_COUNT: usize = 19;

/// All kinds, in the order of their numbers.
pub const CALL_KINDS: [CallKind; KIND_COUNT] = [
    CallKind::Admit,
    CallKind::OpenCash,
    CallKind::OpenHolding,
    CallKind::OpenLimit,
    CallKind::OpenOther,
    CallKind::Credit,
    CallKind::Post,
    CallKind::Debit,
    CallKind::AnnounceFull,
    CallKind::AnnouncePartial,
    CallKind::AnnounceOther,
    CallKind::Withdraw,
    CallKind::TradeFull,
    CallKind::TradePartial,
    CallKind::TradeOther,
    CallKind::Earmark,
    CallKind::Deliver,
    CallKind::Pay,
    CallKind::Close,
];

fn kind_of_opening(opening: Opening) -> CallKind {
    match RegisterKind::try_from(opening.kind) {
        Ok(RegisterKind::Cash) => CallKind::OpenCash,
        Ok(RegisterKind::Holding) => CallKind::OpenHolding,
        Ok(RegisterKind::Participant) => CallKind::OpenLimit,
        Err(_) => CallKind::OpenOther,
    }
}

fn kind_of_announcement(announced: Announcement) -> CallKind {
    match Mode::try_from(announced.mode) {
        Ok(Mode::Full) => CallKind::AnnounceFull,
        Ok(Mode::Partial) => CallKind::AnnouncePartial,
        Err(_) => CallKind::AnnounceOther,
    }
}

fn kind_of_trade(buy: u32, tally: &Tally) -> CallKind {
    match tally.noted(buy) {
        Some(note) if note.is_partial() => CallKind::TradePartial,
        Some(_) => CallKind::TradeFull,
        None => CallKind::TradeOther,
    }
}

fn kind_of_full(call: FullCall, tally: &Tally) -> CallKind {
    match call {
        FullCall::Admit { .. } => CallKind::Admit,
        FullCall::Open(opening) => kind_of_opening(opening),
        FullCall::Credit { .. } => CallKind::Credit,
        FullCall::Announce(announced) => kind_of_announcement(announced),
        FullCall::Withdraw { .. } => CallKind::Withdraw,
        FullCall::Trade(deal) => kind_of_trade(deal.buy, tally),
    }
}

impl CallKind {
    /// The kind of a call, beside the tally of the calls before it.
    pub(crate) fn of(call: Call, tally: &Tally) -> CallKind {
        match call {
            Call::Partial(PartialCall::Full(call)) => kind_of_full(call, tally),
            Call::Partial(PartialCall::Post { .. }) => CallKind::Post,
            Call::Partial(PartialCall::Debit { .. }) => CallKind::Debit,
            Call::Earmark { .. } => CallKind::Earmark,
            Call::Deliver { .. } => CallKind::Deliver,
            Call::Pay { .. } => CallKind::Pay,
            Call::Close => CallKind::Close,
        }
    }

    /// The kind's name, to be printed.
    pub(crate) fn name(self) -> &'static str {
        match self {
            CallKind::Admit => "admit",
            CallKind::OpenCash => "open of cash",
            CallKind::OpenHolding => "open of a holding",
            CallKind::OpenLimit => "open of a limit",
            CallKind::OpenOther => "open of another kind",
            CallKind::Credit => "credit",
            CallKind::Post => "post",
            CallKind::Debit => "debit",
            CallKind::AnnounceFull => "announce in full mode",
            CallKind::AnnouncePartial => "announce in partial mode",
            CallKind::AnnounceOther => "announce in another mode",
            CallKind::Withdraw => "withdraw",
            CallKind::TradeFull => "trade in full mode",
            CallKind::TradePartial => "trade in partial mode",
            CallKind::TradeOther => "trade of an unknown order",
            CallKind::Earmark => "earmark",
            CallKind::Deliver => "deliver",
            CallKind::Pay => "pay",
            CallKind::Close => "close",
        }
    }
}
