//! A second account of a run of any level, kept from the calls and their outcomes alone.

use crate::call_list::MOST_CALLS;
use crate::costs::cost;
use crate::note::Note;
use crate::opened::Opened;
use crate::owed::Owed;
use crate::places::{self, Place};
use full::announcement::Announcement;
use full::call::Call as FullCall;
use full::deal::Deal;
use full::opening::Opening;
use partial::call::Call as PartialCall;
use partial::obligation::Obligation;
use partial::stage::Stage;
use pool::call::Call;
use pool::leg::Leg;
use registers::key::Key;

/// The ratios by their securities, the opened registers by their keys, the announced orders by their numbers, and
/// the obligations by the numbers of the trades that left them, with what was settled of them: each in the order of
/// the calls.
#[derive(Clone, Copy)]
pub struct Tally {
    // a call notes at most one of each: there is a place for every call that is carried out
    pub ratios: [Place<u16, u16>; MOST_CALLS],
    pub opened: [Place<Key, Opened>; MOST_CALLS],
    pub notes: [Place<u32, Note>; MOST_CALLS],
    pub obligations: [Place<u32, Owed>; MOST_CALLS],
}

impl Tally {
    /// The tally of no calls.
    pub(crate) fn new() -> Tally {
        Tally {
            ratios: [None; MOST_CALLS],
            opened: [None; MOST_CALLS],
            notes: [None; MOST_CALLS],
            obligations: [None; MOST_CALLS],
        }
    }

    fn note_ratio(&mut self, security: u16, ratio: u16) {
        places::insert(&mut self.ratios, security, ratio);
    }

    fn note_opening(&mut self, opening: Opening) {
        let key = Key {
            kind: opening.kind,
            code: opening.code,
            security: opening.security,
        };
        let opened = Opened {
            key,
            blocked: opening.margin,
            trades_leaving_rest: 0,
        };
        places::insert(&mut self.opened, key, opened);
    }

    fn note_order(&mut self, announced: Announcement) {
        let ratio = places::get(&self.ratios, announced.security).unwrap_or(0);
        let note = Note {
            announced,
            ratio,
            traded: 0,
            back: 0,
        };
        places::insert(&mut self.notes, announced.number, note);
    }

    fn note_trade_leaving_rest(&mut self, key: Key) {
        if let Some(opened) = places::get_mut(&mut self.opened, key) {
            opened.trades_leaving_rest = opened.trades_leaving_rest.saturating_add(1);
        }
    }

    fn note_traded(&mut self, number: u32, quantity: u32) {
        if let Some(note) = places::get_mut(&mut self.notes, number) {
            note.traded = note.traded.saturating_add(quantity);
            let after = *note;
            if after.rest() > 0 {
                self.note_trade_leaving_rest(after.key());
            }
        }
    }

    /// What a trade leaves owed: nothing between orders with full collateral.
    fn owed_by(&self, deal: Deal) -> Option<Obligation> {
        let buy = places::get(&self.notes, deal.buy)?;
        let sell = places::get(&self.notes, deal.sell)?;
        if !buy.is_partial() {
            return None;
        }
        Some(Obligation {
            number: deal.number,
            seller: sell.announced.account,
            buyer: buy.announced.account,
            security: buy.announced.security,
            quantity: deal.quantity,
            money: cost(deal.quantity, deal.price)?,
            stage: Stage::BothOwed,
        })
    }

    fn note_trade(&mut self, deal: Deal) {
        if let Some(obligation) = self.owed_by(deal) {
            places::insert(&mut self.obligations, deal.number, Owed::of(obligation));
        }
        self.note_traded(deal.buy, deal.quantity);
        self.note_traded(deal.sell, deal.quantity);
    }

    fn note_withdrawn(&mut self, number: u32) {
        if let Some(note) = places::get_mut(&mut self.notes, number) {
            note.back = note.back.saturating_add(note.rest());
        }
    }

    fn enter_full(&mut self, call: FullCall) {
        // a match: calls are values, and each kind is noted otherwise
        match call {
            FullCall::Admit { security, ratio } => self.note_ratio(security, ratio),
            FullCall::Open(opening) => self.note_opening(opening),
            FullCall::Credit { .. } => {}
            FullCall::Announce(announced) => self.note_order(announced),
            FullCall::Withdraw { number } => self.note_withdrawn(number),
            FullCall::Trade(deal) => self.note_trade(deal),
        }
    }

    fn note_settled(&mut self, number: u32, leg: Leg) {
        if let Some(owed) = places::get_mut(&mut self.obligations, number) {
            owed.settle(leg);
        }
    }

    /// Notes an accepted call.
    pub(crate) fn enter(&mut self, call: Call) {
        match call {
            Call::Partial(PartialCall::Full(call)) => self.enter_full(call),
            Call::Deliver { number } => self.note_settled(number, Leg::Securities),
            Call::Pay { number } => self.note_settled(number, Leg::Money),
            Call::Partial(PartialCall::Post { .. } | PartialCall::Debit { .. })
            | Call::Earmark { .. }
            | Call::Close => {}
        }
    }

    /// The blocks of the rests on a register.
    pub(crate) fn live_blocks(&self, key: Key) -> u64 {
        self.notes
            .iter()
            .flatten()
            .filter(|(_, note)| note.key() == key)
            .fold(0, |sum: u64, (_, note)| sum.saturating_add(note.block()))
    }

    /// The register of a key as it was opened.
    pub(crate) fn opened_as(&self, key: Key) -> Option<Opened> {
        places::get(&self.opened, key)
    }
}
