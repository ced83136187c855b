//! What is drawn to be called.

/// What is drawn to be called.
#[derive(Clone, Copy, PartialEq, Eq, Debug)]
pub enum Wish {
    Admission,
    Opening,
    Credit,
    Post,
    Debit,
    Announcement,
    Withdrawal,
    Trade,
    Earmark,
    Delivery,
    Payment,
    Close,
}
