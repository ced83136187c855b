//! Tickets of a pool: whoever settles one holds a ticket, and gives it up to close the pool.
//!
//! Neither is `Drop`, `Copy` or `Clone`, and the number is private: a ticket is made by forming a pool
//! alone, is shown or passed on, and ends only where a pool is closed. No ticket is tied to one engine. Both
//! types stand in this file because the one hands its number to the other, and no other file may read it.

/// The ticket of a pool that collects: it is shown to earmark. Ending collection turns it into an
/// `Ending`.
#[must_use]
pub struct Collecting {
    number: u32,
}

/// The ticket of a pool that ends: it is shown to deliver and to pay. Closing takes it in.
#[must_use]
pub struct Ending {
    number: u32,
}

impl Collecting {
    /// Forms a pool. No engine is touched.
    pub fn form() -> Collecting {
        Collecting { number: 0 }
    }

    /// Ends collection: nothing can be earmarked by the ticket from here on. No engine is touched.
    pub fn end(self) -> Ending {
        let Collecting { number } = self;
        Ending { number }
    }
}

impl Ending {
    /// Takes the ticket in. For closing alone.
    pub(crate) fn spend(self) {
        let Ending { number: _ } = self;
    }
}
