// A text in an array of fixed room.
ghost use Rattle.std.specs.Prelude.{◌≡◌, ℕ, ◌≤◌, List, [], ◌++◌, length, take};

use std::fmt;
use std::marker::Model;

// A text of at most `ROOM` bytes, for what is filled bit by bit. Clauses see the bytes that it has so far.
#[derive(Drop)]
pub struct Text<const ROOM: usize> {
    pub bytes: [u8; ROOM],
    pub filled: usize,
}

impl<const ROOM: usize> Model for Text<ROOM> {
    ghost Value = { List ℕ };

    ghost view = { λ t. take t.filled t.bytes };

    ghost invariant = { λ t. t.filled ≤ ROOM };
}

impl<const ROOM: usize> Text<ROOM> {
    // An empty text.
    pub fn new() -> Self
        ensures { result ≡ [] }
    {
        Text {
            bytes: [0; ROOM],
            filled: 0,
        }
    }

    // The bytes.
    pub fn as_bytes(&self) -> &[u8]
        ensures value { result.now ≡ self.now }
        ensures fits { length result.now ≤ ROOM }
    {
        &self.bytes[..self.filled]
    }

    // Drops all bytes.
    pub fn clear(&mut self)
        ensures { self.new ≡ [] }
    {
        self.filled = 0;
    }

    // Appends as much of a part as there is room for.
    pub fn append(&mut self, part: &[u8])
        ensures { self.new ≡ take ROOM (self.old ++ part.now) }
    {
        let from = self.filled;
        let kept = (ROOM - from).min(part.len());
        let end = from + kept;
        let bytes = &mut self.bytes[..];
        bytes[from..end].copy_from_slice(&part[..kept]);
        self.filled = end;
    }
}

// What does not fit is dropped.
impl<const ROOM: usize> fmt::Write for Text<ROOM> {
    fn write_str(&mut self, text: &str) -> fmt::Result {
        self.append(text.as_bytes());
        Ok(())
    }
}
