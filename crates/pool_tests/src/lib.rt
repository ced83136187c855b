//! Tests of the engine with its clearing pool: third figures at their bound, checks in their order, what is
//! earmarked, a full table of obligations, and the close.
#![tactic(auto)]

#[cfg(test)]
mod closes;
#[cfg(test)]
mod counts;
#[cfg(test)]
mod dealings;
#[cfg(test)]
mod earmarks;
#[cfg(test)]
mod handed;
#[cfg(test)]
mod legs;
#[cfg(test)]
mod scenes;
#[cfg(test)]
mod support;
#[cfg(test)]
mod tables;
#[cfg(test)]
mod thirds;
