//! Tests of what no line of a table can say: a read or a write that fails in mid-stream, an
//! allocation that fails, the size of a type. A module for each crate.
#![tactic(auto)]

#[cfg(test)]
mod outbox;
#[cfg(test)]
mod outside;
#[cfg(test)]
mod program;
#[cfg(test)]
mod published;
#[cfg(test)]
mod tree;
#[cfg(test)]
mod users;
