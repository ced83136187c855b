//! Tests of the engine under full collateral: tables that are full, numbers and figures at the ends of
//! their ranges, refusals in their order, and whole dealings over both stores.
#![tactic(auto)]

#[cfg(test)]
mod dealings;
#[cfg(test)]
mod market;
#[cfg(test)]
mod numbers;
#[cfg(test)]
mod openings;
#[cfg(test)]
mod ranges;
#[cfg(test)]
mod support;
#[cfg(test)]
mod tables;
#[cfg(test)]
mod trades;
