// Lines as they are put together, in memory of a fixed size: a contract sees the bytes so far. Not by `write!`, of which the library does not
// say when it succeeds.
ghost use Rattle.std.specs.Prelude.{◌≡◌, ℕ, ◌++◌, ◌+◌, ◌≤◌, List, [], length, take};
ghost use Rattle.report.specs.Lines.{decimal};

use std::marker::Model;

#[derive(Drop)]
pub struct Lines {
    bytes: [u8; Lines::MOST],
    len: usize,
}

impl Model for Lines {
    ghost Value = { List ℕ };

    ghost view = { λ l. take l.len l.bytes };

    ghost invariant = { λ l. l.len ≤ 292 };
}

impl Lines {
    // The bytes that the four lines have at most.
    pub const MOST: usize = 292;

    pub fn new() -> Lines
        ensures { result ≡ [] }
    {
        Lines {
            bytes: [0; Lines::MOST],
            len: 0,
        }
    }

    pub fn as_slice(&self) -> &[u8]
        ensures value { result.now ≡ self.now }
        ensures upper_bound { length result.now ≤ 292 }
    {
        &self.bytes[..self.len]
    }

    pub fn put(&mut self, word: &[u8])
        requires { length self.old + length word.now ≤ 292 }
        ensures { self.new ≡ self.old ++ word.now }
    {
        let end = self.len + word.len();
        self.bytes[self.len..end].copy_from_slice(word);
        self.len = end;
    }

    // In decimal digits, of which there are at most twenty.
    #[tactic(auto, using(crate::proofs::Decimal::decimal_is))]
    pub fn put_number(&mut self, n: u64)
        requires { length self.old + 20 ≤ 292 }
        ensures number { self.new ≡ self.old ++ decimal n }
        ensures upper_bound { length self.new ≤ length self.old + 20 }
    {
        let mut digits = [0; 20];
        let k = io::decimal(n, &mut digits);
        self.put(&digits[..k]);
    }
}
