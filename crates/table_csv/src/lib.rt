// The reader of a table's text: the source that a text is, checks 3 and 4 of document 01 or the rows. The checker reads texts with it, and
// the boundary.
#![tactic(auto)]

ghost use Rattle.std.specs.Prelude.{◌≡◌, ◌-◌, ◌≤◌, cond, length, drop, Some, None};
ghost use Rattle.rules.specs.Text.{digits, opens, inner, shaped, number};
ghost use Rattle.rules.specs.Sources.{text_source, read_of};
ghost use Rattle.table_csv.specs.Reader.{read, stop, ending_at, fits, row_at, rest_of, head_at};

use rules::{Refusal, Row, RowsRead, Table};

// The reader's own checks.
#[derive(Clone, Copy, Debug, PartialEq, Eq)]
pub enum TextCheck {
    Length,
    // Of the line with this number, from 1.
    Line(u64),
}

// Its refusal has its number, and the line for a place.
impl From<TextCheck> for Refusal {
    ghost use Rattle.table_csv.specs.Reader.{refusal_by};

    ghost from_gives = { λ check f. f ≡ refusal_by check };

    fn from(check: TextCheck) -> Refusal {
        match check {
            TextCheck::Length => Refusal {
                number: 3,
                place: 0,
            },
            TextCheck::Line(line) => Refusal {
                number: 4,
                place: line,
            },
        }
    }
}

// Fields of a line.
const FIELDS: usize = 8;

// Digits of a field.
const MAX_DIGITS: usize = 5;

// What ends a field.
#[derive(Clone, Copy, Debug, PartialEq, Eq)]
pub enum Ending {
    Comma,
    LineEnd,
    TextEnd,
}

// What ends a field at the front, and the text behind it.
fn stop_at(text: &[u8]) -> Option<(Ending, &[u8])>
    ensures { read result ≡ stop text.now }
{
    match text {
        [] => Some((Ending::TextEnd, text)),
        [b',', rest @ ..] => Some((Ending::Comma, rest)),
        [b'\r', b'\n', rest @ ..] => Some((Ending::LineEnd, rest)),
        _ => None,
    }
}

// The text behind a quote at the front, where one stands there.
fn unquoted(text: &[u8]) -> Option<&[u8]>
    ensures { rest_of result ≡ cond (opens text.now) (Some (drop 1 text.now)) None }
{
    text.strip_prefix(b"\"")
}

// How many digits stand at the front. A loop, since `take_while` and `position` take one instruction in twenty more for a whole text.
fn run(text: &[u8]) -> usize
    ensures { result ≡ length (digits text.now) }
{
    for (i, b) in text.iter().enumerate() {
        if !b.is_ascii_digit() {
            return i;
        }
    }
    text.len()
}

// One to five digits, no leading zero except 0 itself.
fn shape(ds: &[u8]) -> bool
    ensures { result ≡ shaped ds.now }
{
    match ds {
        [] | [b'0', _, ..] => false,
        _ => ds.len() <= MAX_DIGITS,
    }
}

// The digits of the field at the front, without its quotes: a part of the text.
pub fn field(text: &[u8]) -> &[u8]
    ensures { result.now ≡ digits (inner text.now) }
{
    let t = unquoted(text).unwrap_or(text);
    let n = run(t);
    &t[..n]
}

// What ends the field at the front, whose digits are d, and the text behind it. None where the field is ill-formed, or something else
// follows it.
fn reach<'a>(text: &'a [u8], d: &[u8]) -> Option<(Ending, &'a [u8])>
    requires { d.now ≡ digits (inner text.now) }
    ensures { read result ≡ ending_at text.now }
{
    if !shape(d) {
        return None;
    }
    let n = d.len();
    let behind = match unquoted(text) {
        Some(t) => unquoted(&t[n..])?,
        None => &text[n..],
    };
    stop_at(behind)
}

// The number that at most five digits write. A byte below the digits adds 0, so that nothing is asked of the bytes. A
// loop, since `fold` asks for its invariant in the contract of a closure.
fn number_of(ds: &[u8]) -> u32
    requires { length ds.now ≤ 5 }
    ensures { result ≡ number 0 ds.now }
{
    let mut a = 0;
    for b in ds {
        a = a * 10 + u32::from(b.saturating_sub(b'0'));
    }
    a
}

// The field at place k of a line may end so: the last one with anything but a comma, each other one with a comma.
fn fits_at(ending: Ending, k: usize) -> bool
    ensures { result ≡ fits ending (7 - k) }
{
    (ending == Ending::Comma) == (k < FIELDS - 1)
}

// The line at the front as a row, and the text behind the line. Each field is read from the part of the text that follows the field
// before it. None where the line is ill-formed.
pub fn read_row(text: &[u8]) -> Option<(Row, &[u8])>
    ensures { read result ≡ row_at text.now }
{
    let mut values = [0u32; FIELDS];
    let mut t = text;
    for (k, value) in values.iter_mut().enumerate() {
        let d = field(t);
        let (ending, rest) = reach(t, d)?;
        if !fits_at(ending, k) {
            return None;
        }
        *value = number_of(d);
        t = rest;
    }
    let [id, offset, wcet, deadline, period, start, resume, priority] = values;
    let row = Row {
        id,
        offset,
        wcet,
        deadline,
        period,
        start,
        resume,
        priority,
    };
    Some((row, t))
}

// The text behind line 1, where that is the header.
fn head(text: &[u8]) -> Option<&[u8]>
    ensures { rest_of result ≡ head_at text.now }
{
    let behind = text.strip_prefix(b"id,offset,wcet,deadline,period,start,resume,priority")?;
    let (ending, rest) = stop_at(behind)?;
    match ending {
        Ending::Comma => None,
        Ending::LineEnd | Ending::TextEnd => Some(rest),
    }
}

// The whole text, line by line, up to the first ill-formed line or the end. The rows are stored where they stay; past sixteen they are
// only counted.
#[tactic(auto, using(crate::proofs::Lines::long_refused))]
pub fn read_rows(text: &[u8]) -> Result<RowsRead, Refusal>
    ensures { result ≡ read_of (text_source text.now) }
{
    if Table::MAX_TEXT < text.len() {
        return Err(TextCheck::Length.into());
    }
    let Some(mut t) = head(text) else {
        return Err(TextCheck::Line(1).into());
    };
    let mut rows = [Row::blank(); Table::MAX_ROWS];
    let mut count = 0;
    while !t.is_empty() {
        let Some((row, rest)) = read_row(t) else {
            return Err(TextCheck::Line(count as u64 + 2).into());
        };
        // Not by `get_mut`: a proof knows no element of what it gives.
        if count < Table::MAX_ROWS {
            rows[count] = row;
        }
        count += 1;
        t = rest;
    }
    Ok(RowsRead { rows, count })
}
