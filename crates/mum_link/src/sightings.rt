//! What the frames of a connection show about bans, for the lines on standard error.

use crate::life::Life;
use std::io::Eprint;

/// What a frame shows. Types and fields are those of Mumble.proto.
#[derive(Clone, Copy, Debug, PartialEq, Eq)]
pub enum Sighting {
    /// The client sent a BanList (type 10) that is not just a query.
    SentList,
    /// The client was sent the bans.
    GotList,
    /// The client removed the user of this session with a ban: a UserRemove (type 8) whose `actor` (field 2) is the
    /// client's own session, and whose `ban` (field 4) is true.
    Banned(u32),
    /// The client was denied a permission (type 12) without which nobody is removed or banned.
    Denied(Lacking),
    /// The client, which has sent a list of bans, was refused something as it may not be (type 12, whose `type` is 0).
    Refused,
    /// The login of the client was rejected since its address is banned: a Reject (type 4) whose `reason` is `banned`.
    Rejected,
}

/// A permission that a client lacks.
#[derive(Clone, Copy, Debug, PartialEq, Eq)]
pub enum Lacking {
    Kick,
    Ban,
}

// The header of a frame: two bytes of its type, and four of the length of its payload.
const HEADER_LENGTH: usize = 6;

// How many bytes of a frame are kept: its header, and of its payload three keys with three numbers of at most five bytes.
const FRONT_LENGTH: usize = 24;

const REJECT: u8 = 4;

const SERVER_SYNC: u8 = 5;

const USER_REMOVE: u8 = 8;

const BAN_LIST: u8 = 10;

const PERMISSION_DENIED: u8 = 12;

// The whole payload of a Reject for a ban: `type` 0 and `reason` `banned`.
const BANNED: [u8; 10] = [8, 0, 0x12, 6, b'b', b'a', b'n', b'n', b'e', b'd'];

// The last field of a UserRemove with a ban: `ban` is true.
const WITH_BAN: [u8; 2] = [0x20, 1];

// The whole payload of a query for the bans: `query` is true.
const QUERY: [u8; 2] = [0x10, 1];

// The first field of a denial of these permissions, and the last one of a refusal.
const LACKS_KICK: [u8; 4] = [8, 0x80, 0x80, 4];

const LACKS_BAN: [u8; 4] = [8, 0x80, 0x80, 8];

const REFUSED: [u8; 2] = [0x28, 0];

// Follows the frames that go one way.
#[derive(Clone, Copy)]
struct Frames {
    front: [u8; FRONT_LENGTH],
    last: [u8; 2],
    // how many bytes have come of the frame
    came: usize,
}

impl Frames {
    const fn new() -> Frames {
        Frames {
            front: [0; FRONT_LENGTH],
            last: [0; 2],
            came: 0,
        }
    }

    // Takes what these bytes have of a frame. How many of them.
    fn take(&mut self, bytes: &[u8]) -> usize {
        if self.has_ended() {
            self.came = 0;
        }
        let end = if self.came < HEADER_LENGTH {
            HEADER_LENGTH
        } else {
            self.length()
        };
        let count = bytes.len().min(end.saturating_sub(self.came));
        if self.came < HEADER_LENGTH || self.bears_on_bans() {
            self.keep(bytes, count);
        }
        self.came = self.came.saturating_add(count);
        count
    }

    // Keeps the first bytes of the frame and its last ones.
    fn keep(&mut self, bytes: &[u8], count: usize) {
        let mut place = self.came;
        for byte in bytes.iter().take(count.min(FRONT_LENGTH)) {
            if let Some(kept) = self.front.get_mut(place) {
                *kept = *byte;
            }
            place = place.saturating_add(1);
        }
        for byte in bytes.iter().take(count).skip(count.saturating_sub(2)) {
            self.last = [self.last[1], *byte];
        }
    }

    // The type, if it bears on bans: all such types are below 256.
    fn kind(&self) -> u8 {
        let [high, kind, ..] = self.front;
        if high == 0 { kind } else { 0 }
    }

    fn bears_on_bans(&self) -> bool {
        matches!(
            self.kind(),
            REJECT | SERVER_SYNC | USER_REMOVE | BAN_LIST | PERMISSION_DENIED
        )
    }

    // How many bytes the frame has, whose header is whole.
    fn length(&self) -> usize {
        let [_, _, a, b, c, d, ..] = self.front;
        let payload = u32::from_be_bytes([a, b, c, d]);
        HEADER_LENGTH.saturating_add(payload as usize)
    }

    fn has_ended(&self) -> bool {
        HEADER_LENGTH <= self.came && self.came == self.length()
    }

    fn begins_with(&self, bytes: &[u8]) -> bool {
        self.front[HEADER_LENGTH..].starts_with(bytes)
    }

    // Whether this is the whole payload.
    fn is(&self, payload: &[u8]) -> bool {
        self.length() == HEADER_LENGTH.saturating_add(payload.len()) && self.begins_with(payload)
    }

    // The number after this key at this place of the frame, and the place after it.
    fn number(&self, place: usize, key: u8) -> Option<(u32, usize)> {
        if *self.front.get(place)? != key {
            return None;
        }
        let (mut number, mut scale, mut behind) = (0u32, 1u32, place.saturating_add(1));
        for _ in 0..5 {
            let byte = *self.front.get(behind)?;
            behind = behind.saturating_add(1);
            number = number.saturating_add(u32::from(byte % 128).saturating_mul(scale));
            scale = scale.saturating_mul(128);
            if byte < 128 {
                return Some((number, behind));
            }
        }
        None
    }

    // The session that this UserRemove bans, if it bans one, and that of the actor.
    fn ban(&self) -> Option<(u32, u32)> {
        let (session, behind) = self.number(HEADER_LENGTH, 8)?;
        let (actor, behind) = self.number(behind, 0x10)?;
        let end = match self.number(behind, 0x1a) {
            Some((reason, behind)) => behind.saturating_add(reason as usize),
            None => behind,
        };
        let has_ban = self.length() == end.saturating_add(WITH_BAN.len()) && self.last == WITH_BAN;
        if has_ban {
            Some((session, actor))
        } else {
            None
        }
    }
}

/// Follows the frames that a client sends, and those that it is sent.
#[derive(Clone, Copy)]
pub struct Sightings {
    from_client: Frames,
    to_client: Frames,
    session: Option<u32>,
    has_sent_list: bool,
}

impl Sightings {
    /// At the first frames.
    pub const fn new() -> Sightings {
        Sightings {
            from_client: Frames::new(),
            to_client: Frames::new(),
            session: None,
            has_sent_list: false,
        }
    }

    /// The client of this connection sent these bytes.
    pub fn sent<X: Eprint>(&mut self, bytes: &[u8], life: &Life<X>, connection: u64) {
        let mut rest = bytes;
        for _ in 0..bytes.len() {
            let count = self.from_client.take(rest);
            let Some(behind) = rest.get(count..) else {
                break;
            };
            rest = behind;
            if self.from_client.has_ended() && self.is_list() {
                self.has_sent_list = true;
                life.saw(connection, Sighting::SentList);
            }
            if rest.is_empty() {
                break;
            }
        }
    }

    // Whether the client sent a BanList that may set the bans.
    fn is_list(&self) -> bool {
        self.from_client.kind() == BAN_LIST && !self.from_client.is(&QUERY)
    }

    /// The client of this connection was sent these bytes.
    pub fn got<X: Eprint>(&mut self, bytes: &[u8], life: &Life<X>, connection: u64) {
        let mut rest = bytes;
        for _ in 0..bytes.len() {
            let count = self.to_client.take(rest);
            let Some(behind) = rest.get(count..) else {
                break;
            };
            rest = behind;
            if self.to_client.has_ended() {
                if let Some(sighting) = self.shown() {
                    life.saw(connection, sighting);
                }
            }
            if rest.is_empty() {
                break;
            }
        }
    }

    // What the frame shows that the client was sent.
    fn shown(&mut self) -> Option<Sighting> {
        let frame = self.to_client;
        match frame.kind() {
            REJECT if frame.is(&BANNED) => Some(Sighting::Rejected),
            SERVER_SYNC => {
                self.note_session(&frame);
                None
            }
            USER_REMOVE => self.own_ban(&frame),
            BAN_LIST => Some(Sighting::GotList),
            PERMISSION_DENIED => self.denial(&frame),
            _ => None,
        }
    }

    fn note_session(&mut self, frame: &Frames) {
        if let Some((session, _)) = frame.number(HEADER_LENGTH, 8) {
            self.session = Some(session);
        }
    }

    // The user that the client itself has banned by this UserRemove, which everybody is sent.
    fn own_ban(&self, frame: &Frames) -> Option<Sighting> {
        let (session, actor) = frame.ban()?;
        if self.session == Some(actor) {
            Some(Sighting::Banned(session))
        } else {
            None
        }
    }

    fn denial(&self, frame: &Frames) -> Option<Sighting> {
        if frame.begins_with(&LACKS_KICK) {
            Some(Sighting::Denied(Lacking::Kick))
        } else if frame.begins_with(&LACKS_BAN) {
            Some(Sighting::Denied(Lacking::Ban))
        } else if self.has_sent_list && frame.last == REFUSED {
            Some(Sighting::Refused)
        } else {
            None
        }
    }
}
