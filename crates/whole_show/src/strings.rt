// A list of byte strings, one behind another.
ghost use Rattle.std.specs.Prelude.{◌<◌, ◌≤◌};
ghost use Rattle.whole_show.specs.declared.strings.TheConstants.{BYTES, STRINGS};

// There is room for every show.
const BYTES: usize = 131072;

pub const STRINGS: usize = 2048;

// There is no room for more.
#[derive(Clone, Copy)]
pub struct Full;

#[derive(Drop)]
pub struct Strings {
    bytes: [u8; BYTES],
    // how many of them there are
    used: usize,
    // where each string ends, behind where the first starts
    ends: [usize; STRINGS],
    // how many strings there are
    len: usize,
    ghost used_in_room: { used ≤ BYTES },
    ghost len_in_room: { len < STRINGS },
}

impl Strings {
    pub fn new() -> Strings {
        Strings {
            bytes: [0; BYTES],
            used: 0,
            ends: [0; STRINGS],
            len: 0,
        }
    }

    pub fn len(&self) -> usize {
        self.len
    }

    // String i, if there is one.
    pub fn get(&self, i: usize) -> Option<&[u8]> {
        self.span(i, i.wrapping_add(1))
    }

    // All strings from one up to another, if there are such.
    pub fn span(&self, from: usize, to: usize) -> Option<&[u8]> {
        let ends = &self.ends[..=self.len];
        self.bytes.get(*ends.get(from)?..*ends.get(to)?)
    }

    // A byte more of the string to come.
    pub fn push(&mut self, byte: u8) -> Result<(), Full> {
        if self.used == self.bytes.len() {
            return Err(Full);
        }
        self.bytes[self.used] = byte;
        self.used += 1;
        Ok(())
    }

    // Bytes more of the string to come.
    pub fn extend(&mut self, bytes: &[u8]) -> Result<(), Full> {
        let at = self.used;
        if self.bytes.len() - at < bytes.len() {
            return Err(Full);
        }
        wire::copy_at(bytes, &mut self.bytes, at);
        self.used = at + bytes.len();
        Ok(())
    }

    // The string to come is whole.
    pub fn end(&mut self) -> Result<(), Full> {
        if self.len == self.ends.len() - 1 {
            return Err(Full);
        }
        self.len += 1;
        self.ends[self.len] = self.used;
        Ok(())
    }
}
