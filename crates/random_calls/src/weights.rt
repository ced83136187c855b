//! How often each call is drawn.

use crate::draws::Draws;
use crate::wish::Wish;

/// How often each call is drawn, beside the others.
#[derive(Clone, Copy, PartialEq, Eq, Debug)]
pub struct Weights {
    pub admission: u16,
    pub opening: u16,
    pub credit: u16,
    pub post: u16,
    pub debit: u16,
    pub announcement: u16,
    pub withdrawal: u16,
    pub trade: u16,
    pub earmark: u16,
    pub delivery: u16,
    pub payment: u16,
    pub close: u16,
}

/// How many calls of a run are drawn by `AT_FIRST`, so that there is something to deal with.
pub const FIRST_CALLS: u64 = 60;

/// The weights at the beginning of a run.
pub const AT_FIRST: Weights = Weights {
    admission: 20,
    opening: 60,
    credit: 10,
    post: 10,
    debit: 0,
    announcement: 0,
    withdrawal: 0,
    trade: 0,
    earmark: 0,
    delivery: 0,
    payment: 0,
    close: 0,
};

impl Weights {
    /// Draws a call.
    pub(crate) fn draw(self, draws: &mut Draws) -> Wish {
        let list = [
            (Wish::Admission, self.admission),
            (Wish::Opening, self.opening),
            (Wish::Credit, self.credit),
            (Wish::Post, self.post),
            (Wish::Debit, self.debit),
            (Wish::Announcement, self.announcement),
            (Wish::Withdrawal, self.withdrawal),
            (Wish::Trade, self.trade),
            (Wish::Earmark, self.earmark),
            (Wish::Delivery, self.delivery),
            (Wish::Payment, self.payment),
        ];
        let mut left = draws.below(self.total());
        for (wish, weight) in list {
            let weight = u32::from(weight);
            if left < weight {
                return wish;
            }
            left -= weight;
        }
        Wish::Close
    }

    fn total(self) -> u32 {
        [
            self.admission,
            self.opening,
            self.credit,
            self.post,
            self.debit,
            self.announcement,
            self.withdrawal,
            self.trade,
            self.earmark,
            self.delivery,
            self.payment,
            self.close,
        ]
        .iter()
        .fold(0, |sum: u32, weight| {
            sum.saturating_add(u32::from(*weight))
        })
    }
}
