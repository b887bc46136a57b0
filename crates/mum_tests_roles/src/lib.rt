//! Tests of the parts that the server's roles are made of: a port over links that take nothing or all, the control owner over
//! a box that is full or without memory, the owner's journal, what it offers a store, and a worker at its gate.
#![tactic(auto)]

#[cfg(test)]
mod control;
#[cfg(test)]
mod ends;
#[cfg(test)]
mod gate;
#[cfg(test)]
mod guests;
#[cfg(test)]
mod opening;
#[cfg(test)]
mod owner;
#[cfg(test)]
mod port;
#[cfg(test)]
mod store;
#[cfg(test)]
mod turns;
