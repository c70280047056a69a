//! Tests alone, of all that plans, where no command shows it: dates, the order in which a forest refuses an entry, carried needs, the
//! steps of a keeper, and the parts of agents that wake up apart.
#![tactic(auto)]

#[cfg(test)]
mod dates;
#[cfg(test)]
mod forests;
#[cfg(test)]
mod keepers;
#[cfg(test)]
mod needs;
#[cfg(test)]
mod rows;
#[cfg(test)]
mod spreads;
