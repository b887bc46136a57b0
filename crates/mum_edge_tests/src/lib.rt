//! Tests of what no script over the running server can show: roles beside each other, the clock, links over sockets of
//! which all is known, who has how much of the allowance for long frames, and whom threads wake.
#![tactic(auto)]

#[cfg(test)]
mod clock;
#[cfg(test)]
mod closing;
#[cfg(test)]
mod links;
#[cfg(test)]
mod long_frames;
#[cfg(test)]
mod memory;
#[cfg(test)]
mod together;
#[cfg(test)]
mod waking;
