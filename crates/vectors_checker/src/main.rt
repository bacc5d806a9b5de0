// Runs the checker on tables whose replies are known without it. A line of standard input is a reason, a call and a text, with
// bars between; as_run has its requests and its loadings behind two more bars. For each it writes the reason and the reply, and
// what the lent buffer holds after it. A line without a bar is a heading. No crate uses it.
//
//     verdict POLICY ALLOWANCE
//     responses POLICY ALLOWANCE LENGTH    lends LENGTH numbers, each 777
//     schedule POLICY LENGTH               lends LENGTH bytes, each 170
//     as_run POLICY LENGTH                 the same
//     ids LENGTH                           the same
//
// The crate cases says how a text is written. A slot is written as its id and a letter for its kind: i idle, l loading,
// e executing, m from the miss on, ? for a byte that is no kind. Where not every slot is written, or the length is odd, a sum
// over all bytes follows.
#![tactic(auto)]

ghost use Rattle.std.specs.Prelude.{◌≤◌};

use std::{fmt, io};

// The most bytes of input that are read.
const MOST_INPUT: usize = 65_536;

// Numbers in a part of a line.
const NUMBERS: usize = 64;

// The longest buffers that are lent, and what stands in them.
const MOST_ROWS: usize = 17;

const MOST_BYTES: usize = 65_538;

const LENT_NUMBER: u32 = 777;

const LENT_BYTE: u8 = 170;

// Slots that are written one by one.
const SHOWN: usize = 48;

// WHAT THE LENT BUFFER HOLDS

fn put_all<T: fmt::Display>(rt: &impl Print, numbers: &[T]) -> io::Result<()> {
    rt.write_all(b":")?;
    for x in numbers {
        print!(rt; " {x}")?;
    }
    Ok(())
}

fn letter(kind: u8) -> char {
    match kind {
        0 => 'i',
        1 => 'l',
        2 => 'e',
        3 => 'm',
        _ => '?',
    }
}

fn put_sum(rt: &impl Print, slots: &[u8]) -> io::Result<()> {
    let sum = slots
        .iter()
        .fold(0u64, |s, b| (s % 65_521 * 31 + *b as u64 + 1) % 65_521);
    print!(rt; " sum {sum}")
}

fn put_slots(rt: &impl Print, bytes: &[u8]) -> io::Result<()> {
    rt.write_all(b":")?;
    let (slots, odd) = bytes.as_chunks::<2>();
    for [id, kind] in slots.iter().take(SHOWN) {
        print!(rt; " {id}{}", letter(*kind))?;
    }
    let cut_off = SHOWN < slots.len();
    if cut_off {
        rt.write_all(b" ..")?;
    }
    if cut_off || !odd.is_empty() {
        put_sum(rt, bytes)?;
    }
    Ok(())
}

// NUMBERS, with one blank between

// The number with one more digit; any other byte changes nothing. What would pass 2^64 - 1 is one of the six numbers up to it, which
// the digit tells.
fn with_digit(x: u64, c: u8) -> u64 {
    match c {
        b'0'..=b'9' => {
            let d = (c - b'0') as u64;
            if x < u64::MAX / 10 {
                x * 10 + d
            } else {
                u64::MAX - 5 + d % 6
            }
        }
        _ => x,
    }
}

// The numbers of a part, none in an empty one; how many they are. Where they are more than there is room for, all that follows goes on
// with the last.
fn numbers(part: &[u8], list: &mut [u64; NUMBERS]) -> usize
    ensures { result ≤ 64 }
{
    if part.is_empty() {
        return 0;
    }
    let parts = part.splitn(NUMBERS, |c| *c == b' ');
    for (number, digits) in list.iter_mut().zip(parts) {
        *number = digits.iter().fold(0, |x, c| with_digit(x, *c));
    }
    let blanks = part.iter().filter(|c| **c == b' ').count();
    blanks.min(NUMBERS - 1) + 1
}

fn narrow(x: u64) -> u32 {
    u32::try_from(x).unwrap_or(u32::MAX)
}

fn entries(part: &[u8], list: &mut [u32; NUMBERS]) -> usize
    ensures { result ≤ 64 }
{
    let mut wide = [0; NUMBERS];
    let count = numbers(part, &mut wide);
    for (entry, number) in list.iter_mut().zip(wide) {
        *entry = narrow(number);
    }
    count
}

// THE CALLS

// The first of the room, as many bytes as are lent.
fn lent(room: &mut [u8; MOST_BYTES], length: u64) -> &mut [u8] {
    let slots = &mut room[..MOST_BYTES.min(length as usize)];
    slots.fill(LENT_BYTE);
    slots
}

fn responses(
    rt: &impl Print,
    policy: u32,
    allowance: u64,
    text: &[u8],
    length: u64,
) -> io::Result<()> {
    let mut lent = [LENT_NUMBER; MOST_ROWS];
    let numbers = &mut lent[..MOST_ROWS.min(length as usize)];
    let verdict = checker::responses(policy, allowance, text, numbers);
    print!(rt; " {verdict}")?;
    put_all(rt, numbers)
}

fn schedule(
    rt: &impl Print,
    policy: u32,
    text: &[u8],
    length: u64,
    room: &mut [u8; MOST_BYTES],
) -> io::Result<()> {
    let slots = lent(room, length);
    let reply = checker::schedule(policy, text, slots);
    print!(rt; " {reply}")?;
    put_slots(rt, slots)
}

fn as_run(
    rt: &impl Print,
    policy: u32,
    text: &[u8],
    length: u64,
    requests: &[u32],
    loadings: &[u32],
    room: &mut [u8; MOST_BYTES],
) -> io::Result<()> {
    let slots = lent(room, length);
    let reply = checker::as_run(policy, text, requests, loadings, slots);
    print!(rt; " {reply}")?;
    put_slots(rt, slots)
}

fn ids(rt: &impl Print, text: &[u8], length: u64) -> io::Result<()> {
    let mut lent = [LENT_BYTE; MOST_ROWS];
    let bytes = &mut lent[..MOST_ROWS.min(length as usize)];
    match checker::ids(text, bytes) {
        Ok(count) => print!(rt; " written {count}")?,
        Err(refusal) => print!(rt; " {refusal}")?,
    }
    put_all(rt, bytes)
}

// The reply to a case, cut at its bars: a part that is not there is empty, and a number that is not there 0.
fn reply(rt: &impl Print, case: &[u8], room: &mut [u8; MOST_BYTES]) -> io::Result<()> {
    let mut parts = case.splitn(4, |c| *c == b'|');
    let mut part = || parts.next().unwrap_or_default();
    let (call, written, requests, loadings) = (part(), part(), part(), part());
    let mut given = [0; NUMBERS];
    numbers(call, &mut given);
    let policy = narrow(given[1]);
    let decoded = cases::decode(written);
    let text = decoded.as_slice();
    match call.first() {
        Some(b'v') => print!(rt; " {}", checker::verdict(policy, given[2], text)),
        Some(b'r') => responses(rt, policy, given[2], text, given[3]),
        Some(b's') => schedule(rt, policy, text, given[2], room),
        Some(b'a') => {
            let mut asked = [0; NUMBERS];
            let asks = entries(requests, &mut asked);
            let mut begun = [0; NUMBERS];
            let begins = entries(loadings, &mut begun);
            as_run(
                rt,
                policy,
                text,
                given[2],
                &asked[..asks],
                &begun[..begins],
                room,
            )
        }
        Some(b'i') => ids(rt, text, given[1]),
        _ => rt.write_all(b" no call"),
    }
}

fn main(rt: HostRuntime) -> io::Result<()> {
    // One for all cases: an array in each call would be cleared for each line.
    let mut room = [0; MOST_BYTES];
    cases::reply_to_each(&rt, &mut [0; MOST_INPUT], |case| {
        reply(&rt, case, &mut room)
    })
}
