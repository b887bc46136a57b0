//! Tests of the program's call as it serves, over doors, links and crews in memory. They know the call, what it reads
//! and writes, and the protocol.
#![tactic(auto)]

#[cfg(test)]
mod bans;
#[cfg(test)]
mod client;
#[cfg(test)]
mod ear;
#[cfg(test)]
mod frames;
#[cfg(test)]
mod journals;
#[cfg(test)]
mod keeps;
#[cfg(test)]
mod kicks;
#[cfg(test)]
mod lags;
#[cfg(test)]
mod lobby;
#[cfg(test)]
mod logins;
#[cfg(test)]
mod mutes;
#[cfg(test)]
mod room;
#[cfg(test)]
mod run;
#[cfg(test)]
mod strays;
#[cfg(test)]
mod talk;
#[cfg(test)]
mod views;
