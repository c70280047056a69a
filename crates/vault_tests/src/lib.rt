//! Tests alone, of messages and lanes: streams that fail, HTTP messages, the bodies of Vault's replies, lookups, when lanes hand an
//! answer back, and that nothing shows a credential. Most of what these crates do is proved, or tried with the programs: each test
//! here is an example of a definition, or of what no contract says.
#![tactic(auto)]

#[cfg(test)]
mod bodies;
#[cfg(test)]
mod devices;
#[cfg(test)]
mod lanes;
#[cfg(test)]
mod lookups;
#[cfg(test)]
mod messages;
#[cfg(test)]
mod renewals;
#[cfg(test)]
mod shown;
#[cfg(test)]
mod wires;
