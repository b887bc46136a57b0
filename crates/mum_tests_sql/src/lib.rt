//! Tests of the keeper over a file. No other crate uses it.
#![tactic(auto)]

#[cfg(test)]
mod kept_file;
#[cfg(test)]
mod other_file;
