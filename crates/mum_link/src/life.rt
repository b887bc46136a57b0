//! The lines on standard error by which an administrator sees who comes and goes.

use crate::sightings::{Lacking, Sighting};
use mum_address::{FORMS, LOG_WORDS};
use std::alloc::{AllocError, Global};
use std::io;
use std::io::Eprint;
use std::net::Ipv6Addr;

/// Writes the lines. One that cannot be written changes nothing.
#[derive(Clone, Copy)]
pub struct Life<X> {
    rt: X,
    alloc: Global,
    has_signs: bool,
}

impl<X: Eprint> Life<X> {
    /// With signs of life, or with lines about faults alone.
    pub fn new(rt: X, alloc: Global, has_signs: bool) -> Life<X> {
        Life {
            rt,
            alloc,
            has_signs,
        }
    }

    /// The same with lines about faults alone.
    pub fn silent(self) -> Life<X> {
        Life {
            has_signs: false,
            ..self
        }
    }

    // The whole line goes out in one piece, since several threads write.
    fn write(&self, line: Result<String, AllocError>) {
        if let Ok(line) = line {
            let _unheard: io::Result<()> = self.rt.eprint(line);
        }
    }

    fn sign(&self, line: Result<String, AllocError>) {
        if self.has_signs {
            self.write(line);
        }
    }

    /// It listens at the address of this text, whose port may be left to the system, which chose this one.
    pub fn listens(&self, text: &str, port: Option<u16>) {
        if let (Some(host), Some(port)) = (text.strip_suffix(":0"), port) {
            self.sign(format!(in self.alloc; "murmur: listening on {host}:{port}\n"));
        } else {
            self.sign(format!(in self.alloc; "murmur: listening on {text}\n"));
        }
    }

    /// It listens at the address of this text, where connections begin without the header of a relay.
    pub fn bans_go_by_connections(&self, text: &str) {
        self.sign(format!(in self.alloc;
            "murmur: bans go by the address that connects; behind a relay listen at proxy:{text}, or a ban keeps out nobody, or everybody\n"
        ));
    }

    /// Somebody connected who wants the server to stop.
    pub fn stops(&self) {
        self.sign(format!(in self.alloc; "murmur: is asked to stop\n"));
    }

    /// Connections have their numbers in the order in which they came.
    pub fn came(&self, connection: u64, address: Ipv6Addr) {
        let address = address.to_canonical();
        self.sign(format!(in self.alloc; "murmur: {connection} from {address}\n"));
    }

    /// A frame of this connection showed this about bans.
    pub fn saw(&self, connection: u64, sighting: Sighting) {
        match sighting {
            Sighting::SentList => self.tell(connection, "sent a list of bans"),
            Sighting::GotList => self.tell(connection, "was sent the list of bans"),
            Sighting::Banned(session) => {
                self.sign(format!(in self.alloc;
                    "murmur: {connection} banned session {session}\n"
                ));
            }
            Sighting::Denied(Lacking::Kick) => self.tell(connection, "was denied Kick"),
            Sighting::Denied(Lacking::Ban) => self.tell(connection, "was denied Ban"),
            Sighting::Refused => self.tell(connection, "was refused"),
            Sighting::Rejected => self.tell(connection, "is banned"),
        }
    }

    fn tell(&self, connection: u64, words: &str) {
        self.sign(format!(in self.alloc; "murmur: {connection} {words}\n"));
    }

    pub fn went(&self, connection: u64, seconds: u64, read: u64, written: u64) {
        self.sign(format!(in self.alloc;
            "murmur: {connection} closed after {seconds} s, {read} bytes in, {written} out\n"
        ));
    }

    /// This many connections began without a header until now.
    pub fn has_no_header(&self, refused: u64) {
        self.sign(format!(in self.alloc;
            "murmur: a connection without a PROXY header was closed, {refused} until now\n"
        ));
    }

    /// Threads slept this many times although there was work for them: wakes were missed.
    pub fn overslept(&self, times: u64) {
        self.write(format!(in self.alloc; "murmur: threads overslept {times} times\n"));
    }

    pub fn is_no_address(&self, text: &str) {
        self.write(format!(in self.alloc; "murmur: {text} is no address; there are {FORMS}\n"));
    }

    pub fn is_no_socket(&self, text: &str) {
        self.write(format!(in self.alloc; "murmur: MURMUR_STOP={text} is no unix:PATH\n"));
    }

    pub fn cannot_listen(&self, address: &str, error: &io::Error) {
        self.write(format!(in self.alloc; "murmur: cannot listen on {address}: {error}\n"));
    }

    /// An accept failed, unlike the one before.
    pub fn cannot_accept(&self, error: &io::Error) {
        self.write(format!(in self.alloc; "murmur: cannot accept connections: {error}\n"));
    }

    pub fn is_no_log_word(&self, word: &str) {
        self.write(format!(in self.alloc;
            "murmur: MURMUR_LOG={word} is no word for it; it is {LOG_WORDS}, which applies\n"
        ));
    }

    pub fn is_no_pace(&self, text: &str) {
        self.write(format!(in self.alloc;
            "murmur: MURMUR_PACE={text} is no pace; it is none, or like 20/200,200/400, which applies\n"
        ));
    }
}
