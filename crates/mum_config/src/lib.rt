//! The configuration of a server: a JSON document, read into the edits from which the server starts.
//! `read_config` reads one; `specs/Document.antt` is the table of its keys.
#![tactic(auto)]

mod account;
mod channel;
pub mod config;
mod given;
mod link;
mod refusal;

pub use config::{Config, DOCUMENT_LIMIT, read_config};
pub use mum_document::ConfigFault;
pub use refusal::BadConfig;
