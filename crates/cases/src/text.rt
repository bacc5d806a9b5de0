// A text as it is put together, in memory of a fixed size: a contract sees the bytes so far.
ghost use Rattle.std.specs.Prelude.{◌≡◌, ℕ, ◌++◌, ◌-◌, ◌≤◌, List, [], length, take};
ghost use Rattle.cases.specs.declared.TheConstants.{ROOM};

use crate::ROOM;
use std::marker::Model;

#[derive(Drop)]
pub struct Text {
    bytes: [u8; ROOM],
    len: usize,
}

impl Model for Text {
    ghost Value = { List ℕ };

    ghost view = { λ t. take t.len t.bytes };

    ghost invariant = { λ t. t.len ≤ ROOM };
}

impl Text {
    pub fn new() -> Text
        ensures { result ≡ [] }
    {
        Text {
            bytes: [0; ROOM],
            len: 0,
        }
    }

    pub fn as_slice(&self) -> &[u8]
        ensures { result.now ≡ self.now }
    {
        &self.bytes[..self.len]
    }

    // Adds a part, as far as there is room.
    pub fn put(&mut self, part: &[u8])
        ensures value { self.new ≡ self.old ++ take (ROOM - length self.old) part.now }
        ensures upper_bound { length self.new ≤ ROOM }
    {
        let n = part.len().min(ROOM - self.len);
        let end = self.len + n;
        self.bytes[self.len..end].copy_from_slice(&part[..n]);
        self.len = end;
    }
}
