//! The shapes of runs: how large a store is, and what is drawn how often.
//!
//! Each refusal that a run from an empty store can bring about comes up in one of them: 2 where the room is small, 4
//! where there are many securities, 9 where there are many orders, 18 where there are many obligations, 26 where
//! amounts are great, and all others in most. These can not come up:
//!
//! - 25, figures that were read out of range. An opening writes figures in range, and every call refuses to leave it,
//!   so only an image that brings rows with it has such.
//! - 6 of a withdrawal, of a trade, of a delivery and of a payment: an order was accepted over open registers, and
//!   none closes.
//! - 26 of a withdrawal. The block of a rest is taken from a blocked figure that holds it but for some kopecks.
//! - 26 of a trade in partial mode. When an order is accepted in that mode, the limit is no lower than the blocked
//!   figure; from then on the rests of at most 256 orders take at most 10^12 each from it, until the next is accepted.
//!   That is less than the 10^15 that the range has below 0.
//! - 26 of an earmark. The limit is left no lower than the blocked figure, the third no higher than what is owed by 128
//!   obligations, which is less than 10^15, and their sum stays.

ghost use Rattle.std.specs.Prelude.{◌≤◌};

use crate::weights::Weights;

/// A shape. Limits and amounts are drawn up to `amount`, quantities and prices up to theirs, orders from so many
/// accounts and in so many securities; `partial` of ten orders are in partial mode.
#[derive(Clone, Copy)]
pub struct Shape {
    pub name: &'static str,
    pub reserve: u16,
    pub room: usize,
    pub securities: u16,
    pub accounts: u32,
    pub amount: u64,
    pub quantity: u32,
    pub price: u32,
    pub partial: u32,
    pub weights: Weights,
    ghost stored: { room ≤ 4096 },
}

/// How many shapes there are.
pub const SHAPE_COUNT: u64 = 7;

/// The shapes, in the order in which runs take them.
pub const SHAPES: [Shape; 7] = [
    Shape {
        name: "a bit of all",
        reserve: 1_000,
        room: 40,
        securities: 3,
        accounts: 6,
        amount: 2_000,
        quantity: 150,
        price: 400,
        partial: 5,
        weights: Weights {
            admission: 2,
            opening: 8,
            credit: 1,
            post: 2,
            debit: 8,
            announcement: 37,
            withdrawal: 9,
            trade: 33,
            earmark: 8,
            delivery: 6,
            payment: 6,
            close: 1,
        },
    },
    Shape {
        name: "a small store",
        reserve: 50,
        room: 10,
        securities: 2,
        accounts: 3,
        amount: 800,
        quantity: 40,
        price: 1_000,
        partial: 5,
        weights: Weights {
            admission: 2,
            opening: 15,
            credit: 5,
            post: 4,
            debit: 4,
            announcement: 35,
            withdrawal: 5,
            trade: 30,
            earmark: 6,
            delivery: 5,
            payment: 5,
            close: 1,
        },
    },
    Shape {
        name: "many securities",
        reserve: 0,
        room: 120,
        securities: 90,
        accounts: 2,
        amount: 2_000,
        quantity: 40,
        price: 400,
        partial: 5,
        weights: Weights {
            admission: 25,
            opening: 30,
            credit: 5,
            post: 3,
            debit: 2,
            announcement: 25,
            withdrawal: 2,
            trade: 8,
            earmark: 1,
            delivery: 1,
            payment: 1,
            close: 1,
        },
    },
    Shape {
        name: "many orders",
        reserve: 200,
        room: 30,
        securities: 2,
        accounts: 4,
        amount: 1_000_000,
        quantity: 5,
        price: 100,
        partial: 5,
        weights: Weights {
            admission: 1,
            opening: 3,
            credit: 1,
            post: 1,
            debit: 1,
            announcement: 88,
            withdrawal: 2,
            trade: 3,
            earmark: 2,
            delivery: 1,
            payment: 1,
            close: 1,
        },
    },
    Shape {
        name: "many obligations",
        reserve: 200,
        room: 30,
        securities: 1,
        accounts: 4,
        amount: 400,
        quantity: 100,
        price: 150,
        partial: 10,
        weights: Weights {
            admission: 1,
            opening: 4,
            credit: 1,
            post: 3,
            debit: 7,
            announcement: 34,
            withdrawal: 2,
            trade: 48,
            earmark: 2,
            delivery: 1,
            payment: 1,
            close: 1,
        },
    },
    Shape {
        name: "great amounts",
        reserve: 65_535,
        room: 16,
        securities: 1,
        accounts: 2,
        amount: 100_000_000_000_000,
        quantity: 1_000_000,
        price: 100_000_000,
        partial: 4,
        weights: Weights {
            admission: 1,
            opening: 6,
            credit: 36,
            post: 7,
            debit: 5,
            announcement: 26,
            withdrawal: 4,
            trade: 24,
            earmark: 6,
            delivery: 3,
            payment: 6,
            close: 1,
        },
    },
    Shape {
        name: "many settlements",
        reserve: 100,
        room: 30,
        securities: 2,
        accounts: 6,
        amount: 20_000,
        quantity: 60,
        price: 2_000,
        partial: 9,
        weights: Weights {
            admission: 1,
            opening: 6,
            credit: 4,
            post: 4,
            debit: 1,
            announcement: 30,
            withdrawal: 2,
            trade: 36,
            earmark: 16,
            delivery: 8,
            payment: 8,
            close: 2,
        },
    },
];
