//! What a client was written.

// The types of frames below this number are counted.
const TYPES: usize = 32;

const HEADER_LENGTH: usize = 6;

/// How many frames of each type a client was written, and whether it came to the end of its acts.
#[derive(Clone, Copy)]
pub struct Heard {
    frames: [u32; TYPES],
    pub is_through: bool,
}

impl Heard {
    /// Nothing yet.
    pub const fn new() -> Heard {
        Heard {
            frames: [0; TYPES],
            is_through: false,
        }
    }

    /// How many frames of this type.
    pub fn frames(&self, kind: u8) -> u32 {
        match self.frames.get(usize::from(kind)) {
            Some(count) => *count,
            None => 0,
        }
    }

    fn count(&mut self, kind: u8) {
        if let Some(count) = self.frames.get_mut(usize::from(kind)) {
            *count = count.saturating_add(1);
        }
    }
}

/// Cuts what a client is written into frames. A frame is counted with its header: two bytes of its type, and four of
/// the length of its payload.
#[derive(Clone, Copy)]
pub struct Ear {
    pub heard: Heard,
    header: [u8; HEADER_LENGTH],
    // how many bytes of the header came, and how many of the payload are still to come
    came: usize,
    left: u32,
}

impl Ear {
    pub const fn new() -> Ear {
        Ear {
            heard: Heard::new(),
            header: [0; HEADER_LENGTH],
            came: 0,
            left: 0,
        }
    }

    /// One byte more. The type of the frame that it begins, where it is the last of a header.
    pub fn hear(&mut self, byte: u8) -> Option<u8> {
        if self.left > 0 {
            self.left -= 1;
            return None;
        }
        if let Some(place) = self.header.get_mut(self.came) {
            *place = byte;
        }
        self.came = self.came.saturating_add(1);
        if self.came < HEADER_LENGTH {
            return None;
        }
        self.came = 0;
        let [_, kind, a, b, c, d] = self.header;
        self.left = u32::from_be_bytes([a, b, c, d]);
        self.heard.count(kind);
        Some(kind)
    }
}
