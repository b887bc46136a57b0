//! Tests of the audit: journals that are legal, and journals that are wrong in one line each, read from their
//! text. No other crate uses it.
#![tactic(auto)]

#[cfg(test)]
mod journals;
