#![tactic(auto)]
//! Tests the memory that public calls of the bridge and its parts allocate and free.

#[cfg(test)]
mod account;
#[cfg(test)]
mod bridges;
#[cfg(test)]
mod calls;
#[cfg(test)]
mod copies;
#[cfg(test)]
mod parts;
#[cfg(test)]
mod police;
#[cfg(test)]
mod refusals;
#[cfg(test)]
mod usage;
