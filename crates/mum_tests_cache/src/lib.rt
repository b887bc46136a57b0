//! Tests of what is kept of answers: to ask for what is valid costs no walk, and what is kept follows each edit. No
//! other crate uses it.
#![tactic(auto)]

#[cfg(test)]
mod edits;
#[cfg(test)]
mod following;
#[cfg(test)]
mod standing;
