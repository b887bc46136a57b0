//! Objects of a document, read key by key. A reader of a key answers `None` where the key is left out,
//! and refuses what the reader of that kind in `value` refuses; where the key must be there, it refuses
//! one that is left out as `WrongKind`. Each error names the key with its way, or says that memory ran
//! out on the way to it.

ghost use Rattle.std.specs.Prelude.{◌≡◌, ◌++◌, IfOk, Ok, Option, Some, [], map, unwrap_or};
ghost use Rattle.std.specs.List.{list_any};
ghost use Rattle.std.specs.Option.{option_map};
ghost use Rattle.std.specs.Str.{bytes_eq};
ghost use Rattle.serde_json.specs.Find.{as_object, get};
ghost use Rattle.serde_json.specs.View.{view};
ghost use Rattle.mum_document.specs.Fault.{Fault, against, within};
ghost use Rattle.mum_document.specs.Object.{elements_at, has, number_at, opening_fault, text_at, unknown_fault};
ghost use Rattle.mum_document.specs.Reading.{Lends, Names, Reads, ReadsElements, ReadsValues};
ghost use Rattle.mum_document.specs.Value.{digest_fault, digest_of, elements_of, flag_fault, flag_of, list_fault, name_fault, needed, number_fault, number_of, signed_fault, signed_of, text_fault, text_of, wanted};

use crate::fault::{ConfigFault, DocumentError, fault_at, seen_from};
use crate::value::{
    read_digest, read_flag, read_list, read_name, read_number, read_signed, read_text,
};
use mum_base::{OutOfMemory, Text};
use serde_json::Value;
use std::alloc::Global;

/// An object of the document, and what comes before a key in its way: a dot inside a list, and
/// nothing in the document itself.
#[derive(Clone, Copy)]
pub struct Object<'a> {
    pub alloc: Global,
    pub value: &'a Value,
    pub dot: &'static str,
}

// Whether the key is one of these.
fn is_known(names: &[&str], key: &str) -> bool
    ensures { result ≡ list_any (λ name. bytes_eq name.now key.now) names.now }
{
    names.iter().any(|name| *name == key)
}

#[tactic(auto, unfolding(crate::specs::Fault::within, crate::specs::Value::wanted, crate::specs::Value::needed,),)]
impl<'a> Object<'a> {
    /// Refuses what is no object (`WrongKind`), and then one that has other keys than these
    /// (`UnknownKey`, of the least of them).
    pub fn open(&self, names: &[&str]) -> Result<(), DocumentError>
        ensures { Reads (opening_fault self.now.dot.now (map (λ n. n.now) names.now)
            (view self.now.value.now)) tt result }
    {
        if !self.value.is_object() {
            return Err(fault_at(self.alloc, ConfigFault::WrongKind, ""));
        }
        self.refuse_others(names)
    }

    /// Refuses an object that has other keys than these, for the least of them.
    pub fn refuse_others(&self, names: &[&str]) -> Result<(), DocumentError>
        ensures { Reads (unknown_fault self.now.dot.now (map (λ n. n.now) names.now)
            (view self.now.value.now)) tt result }
    {
        let Some(members) = self.value.as_object() else {
            return Ok(());
        };
        for (key, _) in members.iter() {
            if !is_known(names, key.as_str()) {
                return Err(self.fault(key.as_str(), ConfigFault::UnknownKey));
            }
        }
        Ok(())
    }

    // The fault at a key.
    fn fault(&self, name: &str, cause: ConfigFault) -> DocumentError
        ensures { Names result (within (self.now.dot.now ++ name.now)
            (Some (record { cause = cause; key = [] }))) }
    {
        self.seen(name, fault_at(self.alloc, cause, ""))
    }

    /// An error of the value at a key.
    pub fn seen(&self, name: &str, error: DocumentError) -> DocumentError
        ensures { (fault : Option Fault) → Names error fault →
            Names result (within (self.now.dot.now ++ name.now) fault) }
    {
        let inner = seen_from(self.alloc, name, error);
        seen_from(self.alloc, self.dot, inner)
    }

    /// What was read of the value at a key.
    pub fn at<T: Drop>(
        &self,
        name: &str,
        read: Result<T, DocumentError>,
    ) -> Result<T, DocumentError>
        ensures reads { (fault : Option Fault) (value : T) → Reads fault value read →
            Reads (within (self.now.dot.now ++ name.now) fault) value result }
        ensures ok { IfOk result (λ value. read ≡ Ok value) }
    {
        match read {
            Ok(value) => Ok(value),
            Err(error) => Err(self.seen(name, error)),
        }
    }

    /// Refuses the value at a key where something holds.
    pub fn refuse_if(
        &self,
        holds: bool,
        name: &str,
        cause: ConfigFault,
    ) -> Result<(), DocumentError>
        ensures { Reads (within (self.now.dot.now ++ name.now) (against cause holds)) tt result }
    {
        if holds {
            return Err(self.fault(name, cause));
        }
        Ok(())
    }

    /// Whether the key is there.
    pub fn has(&self, name: &str) -> bool
        ensures { result ≡ has name.now (view self.now.value.now) }
    {
        self.value.get(name).is_some()
    }

    /// A number from `low` to `high`.
    pub fn number(&self, name: &str, low: u32, high: u32) -> Result<Option<u32>, DocumentError>
        ensures { let found = get name.now (view self.now.value.now) in
            Reads (within (self.now.dot.now ++ name.now) (wanted (number_fault low high) found))
            (option_map number_of found) result }
    {
        match self.value.get(name) {
            Some(value) => match read_number(value, low, high) {
                Ok(number) => Ok(Some(number)),
                Err(cause) => Err(self.fault(name, cause)),
            },
            None => Ok(None),
        }
    }

    /// A number from `low` to `high` that must be there.
    pub fn needed_number(&self, name: &str, low: u32, high: u32) -> Result<u32, DocumentError>
        ensures { let object = view self.now.value.now in
            Reads (within (self.now.dot.now ++ name.now)
            (needed (number_fault low high) (get name.now object)))
            (number_at name.now 0 object) result }
    {
        match self.number(name, low, high)? {
            Some(number) => Ok(number),
            None => Err(self.fault(name, ConfigFault::WrongKind)),
        }
    }

    /// A number of 32 bits with a sign.
    pub fn signed(&self, name: &str) -> Result<Option<i32>, DocumentError>
        ensures { let found = get name.now (view self.now.value.now) in
            Reads (within (self.now.dot.now ++ name.now) (wanted signed_fault found))
            (option_map signed_of found) result }
    {
        match self.value.get(name) {
            Some(value) => match read_signed(value) {
                Ok(number) => Ok(Some(number)),
                Err(cause) => Err(self.fault(name, cause)),
            },
            None => Ok(None),
        }
    }

    /// True or false.
    pub fn flag(&self, name: &str) -> Result<Option<bool>, DocumentError>
        ensures { let found = get name.now (view self.now.value.now) in
            Reads (within (self.now.dot.now ++ name.now) (wanted flag_fault found))
            (option_map flag_of found) result }
    {
        match self.value.get(name) {
            Some(value) => match read_flag(value) {
                Ok(flag) => Ok(Some(flag)),
                Err(cause) => Err(self.fault(name, cause)),
            },
            None => Ok(None),
        }
    }

    /// A text of at most n bytes.
    pub fn text(&self, name: &str, limit: usize) -> Result<Option<Text>, DocumentError>
        ensures { let found = get name.now (view self.now.value.now) in
            Reads (within (self.now.dot.now ++ name.now) (wanted (text_fault limit) found))
            (option_map text_of found) result }
    {
        match self.value.get(name) {
            Some(value) => match read_text(value, limit) {
                Ok(text) => Ok(Some(Text::of(self.alloc, text)?)),
                Err(cause) => Err(self.fault(name, cause)),
            },
            None => Ok(None),
        }
    }

    /// A name that must be there.
    pub fn needed_name(&self, name: &str) -> Result<&'a str, DocumentError>
        ensures { let object = view self.now.value.now in
            Lends (within (self.now.dot.now ++ name.now)
            (needed name_fault (get name.now object))) (text_at name.now object) result }
    {
        match self.value.get(name) {
            Some(value) => match read_name(value) {
                Ok(text) => Ok(text),
                Err(cause) => Err(self.fault(name, cause)),
            },
            None => Err(self.fault(name, ConfigFault::WrongKind)),
        }
    }

    /// A SHA-256 digest.
    pub fn digest(&self, name: &str) -> Result<Option<[u8; 32]>, DocumentError>
        ensures { let found = get name.now (view self.now.value.now) in
            Reads (within (self.now.dot.now ++ name.now) (wanted digest_fault found))
            (option_map digest_of found) result }
    {
        match self.value.get(name) {
            Some(value) => match read_digest(value) {
                Ok(digest) => Ok(Some(digest)),
                Err(cause) => Err(self.fault(name, cause)),
            },
            None => Ok(None),
        }
    }

    /// A SHA-256 digest that must be there.
    pub fn needed_digest(&self, name: &str) -> Result<[u8; 32], DocumentError>
        ensures { let found = get name.now (view self.now.value.now) in
            Reads (within (self.now.dot.now ++ name.now) (needed digest_fault found))
            (unwrap_or (option_map digest_of found) []) result }
    {
        match self.digest(name)? {
            Some(digest) => Ok(digest),
            None => Err(self.fault(name, ConfigFault::WrongKind)),
        }
    }

    /// The elements of a list of at most n.
    pub fn list(&self, name: &str, limit: usize) -> Result<Option<&'a [Value]>, DocumentError>
        ensures { let found = get name.now (view self.now.value.now) in
            ReadsElements (within (self.now.dot.now ++ name.now) (wanted (list_fault limit) found))
            (option_map elements_of found) result }
    {
        match self.value.get(name) {
            Some(value) => match read_list(value, limit) {
                Ok(values) => Ok(Some(values)),
                Err(cause) => Err(self.fault(name, cause)),
            },
            None => Ok(None),
        }
    }

    /// The elements of a list of at most n; none where it is left out.
    pub fn elements(&self, name: &str, limit: usize) -> Result<&'a [Value], DocumentError>
        ensures { let object = view self.now.value.now in
            ReadsValues (within (self.now.dot.now ++ name.now)
            (wanted (list_fault limit) (get name.now object))) (elements_at name.now object) result }
    {
        match self.list(name, limit)? {
            Some(values) => Ok(values),
            None => Ok(&[]),
        }
    }
}
