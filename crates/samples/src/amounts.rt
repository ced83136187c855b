//! The amounts' examples, worked out by the code.

use registers::amounts::{money, risk};
use registers::ranges::{Price, Quantity, Ratio};
use std::{fmt, io};

/// A number that lies outside the range of what it stands for.
#[derive(Clone, Copy)]
enum Outside {
    Quantity(u32),
    Price(u32),
    Ratio(u32),
}

impl fmt::Display for Outside {
    fn fmt<W: fmt::Write>(&self, f: &mut fmt::Formatter<W>) -> fmt::Result {
        match *self {
            Outside::Quantity(number) => write!(f, "quantity {number}: outside its range"),
            Outside::Price(number) => write!(f, "price {number}: outside its range"),
            Outside::Ratio(number) => write!(f, "ratio {number}: outside its range"),
        }
    }
}

fn bargain(count: u32, value: u32) -> Result<(Quantity, Price), Outside> {
    let quantity = Quantity::new(count).ok_or(Outside::Quantity(count))?;
    let price = Price::new(value).ok_or(Outside::Price(value))?;
    Ok((quantity, price))
}

fn cost(count: u32, value: u32) -> Result<u64, Outside> {
    let (quantity, price) = bargain(count, value)?;
    Ok(money(quantity, price).units)
}

fn margin(count: u32, value: u32, share: u32) -> Result<u64, Outside> {
    let (quantity, price) = bargain(count, value)?;
    let ratio = Ratio::new(share).ok_or(Outside::Ratio(share))?;
    Ok(risk(quantity, price, ratio).units)
}

/// Quantities and prices, and such on both sides of each range.
const BARGAINS: [(u32, u32); 8] = [
    (1, 49),
    (1, 50),
    (3, 50),
    (1_000_000, 100_000_000),
    (0, 50),
    (1_000_001, 50),
    (1, 0),
    (1, 100_000_001),
];

/// Quantities, prices and ratios, and a ratio above its range.
const RISKS: [(u32, u32, u32); 5] = [
    (10, 123_456, 1_000),
    (1_000_000, 100_000_000, 10_000),
    (1, 49, 10_000),
    (1, 50, 10_000),
    (10, 123_456, 10_001),
];

/// Prints the amounts' examples, and numbers on both sides of each range.
pub fn show(rt: &HostRuntime) -> io::Result<()> {
    println!(rt; "amounts")?;
    for (count, value) in BARGAINS {
        match cost(count, value) {
            Ok(units) => println!(rt; "Money({count}, {value}) = {units}")?,
            Err(outside) => println!(rt; "{outside}")?,
        }
    }
    for (count, value, share) in RISKS {
        match margin(count, value, share) {
            Ok(units) => println!(rt; "Risk({count}, {value}, {share}) = {units}")?,
            Err(outside) => println!(rt; "{outside}")?,
        }
    }
    Ok(())
}
