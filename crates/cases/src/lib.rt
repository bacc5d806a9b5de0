// What the programs that run vectors share, and no other crate uses: how their input is cut into lines and a line at its bar, and
// how a text is written in it. A line is a reason, a bar and a case; a line without a bar is a heading.
//
// In a text round brackets stand around a row, and in them a blank for its comma: (1 0 2 5 5 1 1 1). After a backslash h stands
// for the header with its line end, m for ten rows, c for a hundred zeros, r, n, t, 0 and x for CR, LF, tab, NUL and byte 255,
// any other byte for itself.
#![tactic(auto)]

ghost use Rattle.std.specs.Prelude.{◌≡◌, ◌==◌, ◌≤◌, MatchOption, None, length};
ghost use Rattle.std.specs.List.{before_first, after_first, position};
ghost use Rattle.cases.specs.declared.TheConstants.{ROOM};

use std::{io, mem};
pub use text::Text;

mod text;

// Room for a text, over the limit of 4,096 bytes.
pub const ROOM: usize = 5_000;

const HEADER: &[u8] = b"id,offset,wcet,deadline,period,start,resume,priority\r\n";

const ROW: &[u8] = b"1,0,1,2,2,0,0,1\r\n";

// LINES

// Where the first b stands.
fn find(text: &[u8], b: u8) -> Option<usize>
    ensures { result ≡ position (λ x. x == b) text.now }
{
    text.iter().position(|x| *x == b)
}

// The bytes before the first b and those behind it, if there is one.
fn split_once(text: &[u8], b: u8) -> Option<(&[u8], &[u8])>
    ensures { MatchOption result
        (position (λ x. x == b) text.now ≡ None)
        (λ p. (p.0.now ≡ before_first (λ x. x == b) text.now) × (p.1.now ≡ after_first (λ x. x == b) text.now)) }
{
    let k = find(text, b)?;
    Some((&text[..k], &text[k + 1..]))
}

// Reads standard input into the lent bytes, as much as they hold, and writes for each of its lines the reason and, where a case
// follows, an arrow and what `reply` writes to it.
pub fn reply_to_each<R: Input + Print, F: FnMut(&[u8]) -> io::Result<()>>(
    rt: &R,
    buffer: &mut [u8],
    mut reply: F,
) -> io::Result<()>
    requires { F.IsAlwaysCallable reply }
{
    let n = input::read_full(rt.reader(), buffer)?;
    for ended in buffer[..n].split_inclusive(|b| *b == b'\n') {
        let line = ended.strip_suffix(b"\n").unwrap_or(ended);
        match split_once(line, b'|') {
            None => rt.write_all(line)?,
            Some((reason, case)) => {
                rt.write_all(reason)?;
                rt.write_all(b" ->")?;
                reply(case)?;
            }
        }
        rt.write_all(b"\n")?;
    }
    Ok(())
}

// A WRITTEN TEXT

// What a written text stands for, as far as it is read, and how its next byte is meant.
#[derive(Drop)]
struct Decoder {
    text: Text,
    // A row's bracket is open.
    in_row: bool,
    // A backslash stood before.
    escaped: bool,
    ghost fits: { length text ≤ ROOM },
}

impl Decoder {
    fn put_ten_rows(&mut self) {
        for _ in 0..10 {
            self.text.put(ROW);
        }
    }

    // A byte behind a backslash.
    fn put_code(&mut self, c: u8) {
        match c {
            b'h' => self.text.put(HEADER),
            b'm' => self.put_ten_rows(),
            b'c' => self.text.put(&[b'0'; 100]),
            b'r' => self.text.put(b"\r"),
            b'n' => self.text.put(b"\n"),
            b't' => self.text.put(b"\t"),
            b'0' => self.text.put(b"\0"),
            b'x' => self.text.put(b"\xff"),
            _ => self.text.put(&[c]),
        }
    }

    // Any other byte.
    fn put_plain(&mut self, c: u8) {
        match c {
            b'\\' => self.escaped = true,
            b'(' => self.in_row = true,
            b')' => {
                self.in_row = false;
                self.text.put(b"\r\n");
            }
            b' ' if self.in_row => self.text.put(b","),
            _ => self.text.put(&[c]),
        }
    }

    fn put_byte(&mut self, c: u8) {
        if mem::replace(&mut self.escaped, false) {
            self.put_code(c);
        } else {
            self.put_plain(c);
        }
    }
}

// The text that is written so: its first bytes, as many as there is room for.
pub fn decode(written: &[u8]) -> Text
    ensures { length result ≤ ROOM }
{
    let mut decoder = Decoder {
        text: Text::new(),
        in_row: false,
        escaped: false,
    };
    for c in written {
        decoder.put_byte(*c);
    }
    decoder.text
}

#[cfg(test)]
mod tests {
    use super::{ROOM, decode};
    use std::alloc::AllocError;

    #[test]
    fn a_text_is_decoded(rt: HostRuntime) {
        let text = decode(b"a b\\r\\n(1 (2) 3\\(\\ \\\\\\0\\x\\");
        assert_eq!(rt; text.as_slice(), b"a b\r\n1,2\r\n 3( \\\0\xff".as_slice());
    }

    #[test]
    fn a_text_is_cut_off_where_the_room_ends(rt: HostRuntime) -> Result<(), AllocError> {
        let written = b"\\m".repeat(rt.alloc(), 40)?;
        let text = decode(&written);
        assert_eq!(rt; text.as_slice().len(), ROOM);
        assert!(rt; text.as_slice().ends_with(b"\r\n1,"));
        Ok(())
    }
}
