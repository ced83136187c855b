//! Tests of the engine under partial collateral: figures at the ends of their ranges, checks in their
//! order, numbers that both modes share, and the table of obligations once it is full.
#![tactic(auto)]

#[cfg(test)]
mod dealings;
#[cfg(test)]
mod images;
#[cfg(test)]
mod limits;
#[cfg(test)]
mod openings;
#[cfg(test)]
mod support;
#[cfg(test)]
mod tables;
#[cfg(test)]
mod trades;
