//! A second account of a run, kept from the calls and whether they were accepted, and from nothing else.

use crate::any_note::AnyNote;
use crate::fault::Fault;
use crate::note::Note;
use crate::opened::Opened;
use crate::owed::Owed;
use full::announcement::Announcement;
use full::call::Call as FullCall;
use full::deal::Deal;
use full::opening::Opening;
use full::order::Order;
use partial::call::Call as PartialCall;
use partial::obligation::Obligation;
use pool::call::Call;
use pool::leg::Leg;
use registers::key::Key;
use std::alloc::{AllocError, Global};
use std::collections::BTreeMap;
use std::mem;

/// The ratios of admitted securities, the opened registers in their order, the announced orders and the obligations
/// by their numbers, how many orders have a rest, and of how many obligations a leg is owed.
#[derive(Drop)]
pub struct Tally {
    pub reserve: u16,
    pub opened: Vec<Opened>,
    pub live: usize,
    pub standing: usize,
    pub notes: BTreeMap<u32, Note>,
    pub owed: BTreeMap<u32, Owed>,
    ratios: BTreeMap<u16, u16>,
    look: u64,
}

impl Tally {
    /// The tally of no calls, under a reserve.
    pub(crate) fn new(heap: Global, reserve: u16) -> Tally {
        Tally {
            reserve,
            opened: Vec::new(heap),
            live: 0,
            standing: 0,
            notes: BTreeMap::new(heap),
            owed: BTreeMap::new(heap),
            ratios: BTreeMap::new(heap),
            look: 0,
        }
    }

    /// The order of a number as it was noted.
    pub(crate) fn noted(&self, number: u32) -> Option<Note> {
        self.notes.get(&number).copied()
    }

    fn place_of(&self, key: Key) -> Option<usize> {
        self.opened.iter().position(|opened| opened.key == key)
    }

    fn note_admission(&mut self, security: u16, ratio: u16) -> Result<(), Fault> {
        self.ratios
            .insert(security, ratio)
            .map_err(AllocError::from)?;
        Ok(())
    }

    fn note_opening(&mut self, opening: Opening) -> Result<(), Fault> {
        let opened = Opened::of(opening);
        if self.place_of(opened.key).is_some() {
            return Err(Fault::OpenedAgain);
        }
        self.opened.push(opened).map_err(AllocError::from)?;
        Ok(())
    }

    fn note_order(&mut self, announced: Announcement) -> Result<(), Fault> {
        let ratio = self
            .ratios
            .get(&announced.security)
            .copied()
            .ok_or(Fault::NotAdmitted)?;
        let note = Note::of(announced, ratio);
        let register = self.place_of(note.key()).ok_or(Fault::NotOpened)?;
        let before = self
            .notes
            .insert(announced.number, Note { register, ..note })
            .map_err(AllocError::from)?;
        if before.is_some() {
            return Err(Fault::AnnouncedAgain);
        }
        Ok(())
    }

    fn note_trade_leaving_rest(&mut self, register: usize) {
        if let Some(opened) = self.opened.get_mut(register) {
            opened.trades_leaving_rest = opened.trades_leaving_rest.saturating_add(1);
        }
    }

    fn note_traded(&mut self, number: u32, quantity: u32) -> Result<(), Fault> {
        let Some(note) = self.notes.get_mut(&number) else {
            return Err(Fault::NotAnnounced);
        };
        note.traded = note.traded.saturating_add(quantity);
        let after = *note;
        if after.traded.saturating_add(after.back) > after.announced.quantity {
            return Err(Fault::RestBelowZero);
        }
        if after.rest() > 0 {
            self.note_trade_leaving_rest(after.register);
        }
        Ok(())
    }

    fn note_owed(&mut self, owed: Owed) -> Result<(), Fault> {
        let before = self
            .owed
            .insert(owed.obligation.number, owed)
            .map_err(AllocError::from)?;
        if before.is_some() {
            return Err(Fault::TradedAgain);
        }
        Ok(())
    }

    fn note_trade(&mut self, deal: Deal) -> Result<(), Fault> {
        let buy = self.noted(deal.buy).ok_or(Fault::NotAnnounced)?;
        let sell = self.noted(deal.sell).ok_or(Fault::NotAnnounced)?;
        if buy.is_partial() {
            self.note_owed(Owed::of(deal, buy, sell))?;
        }
        self.note_traded(deal.buy, deal.quantity)?;
        self.note_traded(deal.sell, deal.quantity)
    }

    fn note_withdrawn(&mut self, number: u32) -> Result<(), Fault> {
        let Some(note) = self.notes.get_mut(&number) else {
            return Err(Fault::NotAnnounced);
        };
        note.back = note.back.saturating_add(note.rest());
        Ok(())
    }

    fn note_settled(&mut self, number: u32, leg: Leg) -> Result<(), Fault> {
        let Some(owed) = self.owed.get_mut(&number) else {
            return Err(Fault::NotOwed);
        };
        let settled = owed.settled(leg);
        if *settled {
            return Err(Fault::SettledAgain);
        }
        *settled = true;
        Ok(())
    }

    fn note_full(&mut self, call: FullCall) -> Result<(), Fault> {
        match call {
            FullCall::Admit { security, ratio } => self.note_admission(security, ratio),
            FullCall::Open(opening) => self.note_opening(opening),
            FullCall::Announce(announced) => self.note_order(announced),
            FullCall::Withdraw { number } => self.note_withdrawn(number),
            FullCall::Trade(deal) => self.note_trade(deal),
            FullCall::Credit { .. } => Ok(()),
        }
    }

    fn note(&mut self, call: Call) -> Result<(), Fault> {
        match call {
            Call::Partial(PartialCall::Full(call)) => self.note_full(call),
            Call::Deliver { number } => self.note_settled(number, Leg::Securities),
            Call::Pay { number } => self.note_settled(number, Leg::Money),
            Call::Partial(PartialCall::Post { .. } | PartialCall::Debit { .. })
            | Call::Earmark { .. }
            | Call::Close => Ok(()),
        }
    }

    /// Notes an accepted call, and adds up anew.
    pub(crate) fn enter(&mut self, call: Call) -> Result<(), Fault> {
        self.note(call)?;
        self.add_up();
        Ok(())
    }

    /// Adds up the live rests, and the obligations of which a leg is owed.
    fn add_up(&mut self) {
        self.add_up_rests();
        self.standing = self
            .owed
            .values()
            .filter(|owed| owed.left().is_some())
            .count();
    }

    fn add_up_rests(&mut self) {
        self.live = 0;
        for opened in self.opened.iter_mut() {
            opened.live_blocks = 0;
        }
        for note in self.notes.values() {
            if note.rest() == 0 {
                continue;
            }
            self.live = self.live.saturating_add(1);
            if let Some(opened) = self.opened.get_mut(note.register) {
                opened.live_blocks = opened.live_blocks.saturating_add(note.block());
            }
        }
    }

    /// Puts a note in the place of another, and adds up anew; hands out the other, or none where there was none.
    pub(crate) fn exchange(&mut self, note: AnyNote) -> Option<AnyNote> {
        let before = match note {
            AnyNote::Register(place, opened) => {
                let other = mem::replace(self.opened.get_mut(place)?, opened);
                AnyNote::Register(place, other)
            }
            AnyNote::Order(note) => {
                let other = self.notes.get_mut(&note.announced.number)?;
                AnyNote::Order(mem::replace(other, note))
            }
            AnyNote::Owed(owed) => {
                let other = self.owed.get_mut(&owed.obligation.number)?;
                AnyNote::Owed(mem::replace(other, owed))
            }
        };
        self.add_up();
        Some(before)
    }

    /// Begins to look at an engine: nothing of it is seen yet.
    pub(crate) fn begin_look(&mut self) {
        self.look = self.look.saturating_add(1);
    }

    /// Sees a live order of an engine. Refuses one that was not noted so, has no rest, or was seen in this look.
    pub(crate) fn see_order(&mut self, order: &Order) -> Result<(), Fault> {
        let Some(note) = self.notes.get_mut(&order.number) else {
            return Err(Fault::OtherOrder);
        };
        if note.seen == self.look {
            return Err(Fault::OrderTwice);
        }
        note.seen = self.look;
        if !note.stands_as(order) {
            return Err(Fault::OtherOrder);
        }
        Ok(())
    }

    /// Sees an obligation of an engine. Refuses one that is not what is left of a noted one, or was seen in this
    /// look.
    pub(crate) fn see_obligation(&mut self, obligation: &Obligation) -> Result<(), Fault> {
        let Some(owed) = self.owed.get_mut(&obligation.number) else {
            return Err(Fault::OtherObligation);
        };
        if owed.seen == self.look {
            return Err(Fault::ObligationTwice);
        }
        owed.seen = self.look;
        if owed.left() != Some(*obligation) {
            return Err(Fault::OtherObligation);
        }
        Ok(())
    }
}
