//! The whole document.

ghost use Rattle.std.specs.Prelude.{◌≡◌, ◌≤◌, ◌++◌, IfOk, IfSome, IsTrue, OnOk, map};
ghost use Rattle.std.specs.List.{flat_map};
ghost use Rattle.serde_json.specs.View.{view};
ghost use Rattle.mum_state.specs.After.{all_fit};
ghost use Rattle.mum_state.specs.State.{empty_state};
ghost use Rattle.mum_config.specs.Account.{account_edit};
ghost use Rattle.mum_config.specs.Channel.{ReadsDepths, channel_edits};
ghost use Rattle.mum_config.specs.Document.{ReadsConfig, ReadsText, ReadsValue, account_list_rows, accounts_in, channel_list_rows, channels_in, channels_met, config_of, link_list_rows, links_in, object_fault_of, server_edit, settings_of, settings_rows};
ghost use Rattle.mum_config.specs.Limits.{FitAfterLimits, settings_and_accounts};
ghost use Rattle.mum_config.specs.Link.{link_edit};
ghost use Rattle.mum_document.specs.Object.{rows_fault};
ghost use Rattle.mum_document.specs.Reading.{Reads};

use crate::account::read_accounts;
use crate::channel::{are_too_many, read_channels};
use crate::link::read_links;
use crate::refusal::{BadConfig, by_code};
use indexmap::IndexMap;
use mum_base::name::TEXT_LIMIT;
use mum_base::{Items, Text};
use mum_document::{ConfigFault, DocumentError, Object, fault_at, or_empty};
use mum_state::{ACCOUNT_LIMIT, DEFAULT_BANDWIDTH, Edit};
use serde_json::Value;
use std::alloc::Global;
use std::mem::drop;

/// The most bytes of a document.
pub const DOCUMENT_LIMIT: usize = 65_536;

/// The most workers of a server.
pub const WORKERS_LIMIT: u32 = 8;

/// The workers of a server where its document names none.
pub const DEFAULT_WORKERS: u32 = 4;

/// The limits of a document. This does nothing: its contract is what they are.
pub fn limits()
    ensures document { DOCUMENT_LIMIT ≡ 65536 }
    ensures workers { WORKERS_LIMIT ≡ 8 }
    ensures default_workers { DEFAULT_WORKERS ≡ 4 }
{}

/// With what a server starts.
#[derive(Drop)]
pub struct Config {
    /// How many workers take voice, 1 to 8.
    pub workers: u8,
    /// The edits that lead from an empty server to the one that the document describes.
    pub edits: Items<Edit>,
}

const KEYS: [&str; 7] = [
    "welcome",
    "bandwidth",
    "workers",
    "server_password_sha256",
    "accounts",
    "channels",
    "links",
];

// What a document says of the server itself.
#[derive(Drop)]
struct Settings {
    welcome: Option<Text>,
    bandwidth: Option<u32>,
    workers: Option<u32>,
    password: Option<[u8; 32]>,
}

fn read_settings(object: &Object<'_>) -> Result<Settings, DocumentError>
    ensures reads { let value = view object.now.value.now in
        Reads (rows_fault object.now.dot.now (settings_rows value)) (settings_of value) result }
    ensures workers { IfOk result (λ settings. IfSome settings.workers (λ workers. workers ≤ 8)) }
{
    let welcome = object.text("welcome", TEXT_LIMIT)?;
    let bandwidth = object.number("bandwidth", 1, u32::MAX)?;
    let workers = object.number("workers", 1, WORKERS_LIMIT)?;
    let password = object.digest("server_password_sha256")?;
    Ok(Settings {
        welcome,
        bandwidth,
        workers,
        password,
    })
}

impl Settings {
    // The edit that sets them; what is not given is as in an empty server.
    fn into_edit(self, alloc: Global) -> Edit
        ensures { result ≡ server_edit self }
    {
        Edit::SetServer {
            welcome: or_empty(alloc, self.welcome),
            bandwidth: self.bandwidth.unwrap_or(DEFAULT_BANDWIDTH),
            password: self.password,
        }
    }
}

// Adds the edits of the accounts, if there are any.
fn accounts_in(object: &Object<'_>, edits: &mut Vec<Edit>) -> Result<(), DocumentError>
    ensures reads { Reads (rows_fault object.now.dot.now (account_list_rows (view object.now.value.now)))
        tt result }
    ensures edits { OnOk result (edits.new.items
        ≡ edits.old.items ++ map account_edit (accounts_in (view object.now.value.now))) }
{
    let values = object.elements("accounts", ACCOUNT_LIMIT)?;
    object.at("accounts", read_accounts(object.alloc, values, edits))
}

// Adds the edits of the channels, and gives for each how many lead to it from the root.
fn channels_in(
    object: &Object<'_>,
    edits: &mut Vec<Edit>,
) -> Result<IndexMap<u32, usize>, DocumentError>
    ensures reads { let value = view object.now.value.now in
        ReadsDepths (rows_fault object.now.dot.now (channel_list_rows value)) (channels_met value) result }
    ensures edits { OnOk result (edits.new.items
        ≡ edits.old.items ++ flat_map channel_edits (channels_in (view object.now.value.now))) }
{
    let values = object.elements("channels", DOCUMENT_LIMIT)?;
    object.refuse_if(are_too_many(values), "channels", ConfigFault::Limit)?;
    match read_channels(object.alloc, values, edits) {
        Ok(depths) => Ok(depths),
        Err(error) => Err(object.seen("channels", error)),
    }
}

// Adds the edits of the links, if there are any.
fn links_in(
    object: &Object<'_>,
    depths: &IndexMap<u32, usize>,
    edits: &mut Vec<Edit>,
) -> Result<(), DocumentError>
    ensures reads { Reads (rows_fault object.now.dot.now
        (link_list_rows depths.now.entries (view object.now.value.now))) tt result }
    ensures edits { OnOk result (edits.new.items
        ≡ edits.old.items ++ map link_edit (links_in (view object.now.value.now))) }
{
    let values = object.elements("links", DOCUMENT_LIMIT)?;
    object.at("links", read_links(object.alloc, values, depths, edits))
}

// Adds the edits of the three lists, one after the other.
fn lists_in(object: &Object<'_>, edits: &mut Vec<Edit>) -> Result<(), DocumentError>
    ensures reads { let value = view object.now.value.now in
        Reads (rows_fault object.now.dot.now (account_list_rows value ++ channel_list_rows value
        ++ link_list_rows (channels_met value).depths value)) tt result }
    ensures edits { let value = view object.now.value.now in OnOk result
        (edits.new.items ≡ edits.old.items ++ (map account_edit (accounts_in value)
        ++ flat_map channel_edits (channels_in value) ++ map link_edit (links_in value))) }
{
    accounts_in(object, edits)?;
    let depths = channels_in(object, edits)?;
    let read = links_in(object, &depths, edits);
    drop(depths);
    read
}

// The configuration that a document describes.
fn read_document(alloc: Global, document: &Value) -> Result<Config, DocumentError>
    ensures { Reads (object_fault_of (view document.now)) (config_of (view document.now)) result }
{
    if !document.is_object() {
        return Err(fault_at(alloc, ConfigFault::NotAnObject, "document"));
    }
    let object = Object {
        alloc,
        value: document,
        dot: "",
    };
    object.refuse_others(&KEYS)?;
    let settings = read_settings(&object)?;
    let workers = settings.workers.unwrap_or(DEFAULT_WORKERS);
    let mut edits = Vec::new(alloc);
    edits.push(settings.into_edit(alloc))?;
    match lists_in(&object, &mut edits) {
        Ok(()) => Ok(Config {
            workers: workers as u8,
            edits: Items::from_vec(edits),
        }),
        Err(error) => {
            drop(edits);
            Err(error)
        }
    }
}

// The value that a text is.
fn read_value(alloc: Global, text: &[u8]) -> Result<Value, DocumentError>
    ensures { ReadsValue text.now result }
{
    match Value::from_slice(alloc, text) {
        Ok(value) => Ok(value),
        Err(error) if error.is_memory() => Err(DocumentError::OutOfMemory),
        Err(_) => Err(fault_at(alloc, ConfigFault::NotJson, "document")),
    }
}

// The configuration that a text is, or its first fault.
fn read_text(alloc: Global, text: &[u8]) -> Result<Config, DocumentError>
    ensures reads { ReadsText text.now result }
    ensures fits { IfOk result (λ config. IsTrue (all_fit empty_state config.edits)) }
    ensures limited { IfOk result (λ config. FitAfterLimits config.edits) }
    ensures alone { IfOk result (λ config. FitAfterLimits (settings_and_accounts config.edits)) }
    ensures workers { IfOk result (λ config. (1 ≤ config.workers) × (config.workers ≤ 8)) }
{
    if text.len() > DOCUMENT_LIMIT {
        return Err(fault_at(alloc, ConfigFault::Limit, "document"));
    }
    let document = read_value(alloc, text)?;
    read_document(alloc, &document)
}

/// Reads the JSON document from which a server starts, or finds its first fault. Its edits fit one
/// after the other from the empty state, also where limits of sessions and channels are set first, and
/// there its settings and accounts fit alone too; a document has at most 1,024 channels whatever the
/// limits are. Its workers are 1 to 8. The keys, and the order in which they are looked at, are in
/// `docs/FORMATS.md`. Where a key comes twice the last one counts. That out of memory is the answer only where
/// something was allocated on the way is not proved.
pub fn read_config(alloc: Global, text: &[u8]) -> Result<Config, BadConfig>
    ensures reads { ReadsConfig text.now result }
    ensures fits { IfOk result (λ config. IsTrue (all_fit empty_state config.edits)) }
    ensures limited { IfOk result (λ config. FitAfterLimits config.edits) }
    ensures alone { IfOk result (λ config. FitAfterLimits (settings_and_accounts config.edits)) }
    ensures workers { IfOk result (λ config. (1 ≤ config.workers) × (config.workers ≤ 8)) }
{
    match read_text(alloc, text) {
        Ok(config) => Ok(config),
        Err(error) => Err(by_code(error)),
    }
}
