// What one task has part in during a slot, or during many slots in which nothing changes hands: small functions on a row and on
// numbers, by value. They are total: none asks anything of its arguments. The checker's loop is made of them.
#![tactic(auto)]

ghost use Rattle.std.specs.Prelude.{◌≡◌, ◌-◌, min, get_or};
ghost use Rattle.slots.specs.Jobs.{used_of, key_of, worked_of, open_of, continues_of, delay_of, begun_of, begins_of};

use rules::{Executed, Loading, Row};

// No time: what stands where a time would, if there is none. It is later than every time, so that the least of an array of times needs
// no test, as it would of an array of Options.
pub const NEVER: u64 = u64::MAX;

// The slots from one time to another, 0 where it is not later; as many as 32 bits count.
pub fn span(from: u64, to: u64) -> u32
    ensures { result ≡ min (to - from) 4294967295 }
{
    to.saturating_sub(from).min(u32::MAX as u64) as u32
}

// The entry of a lent list, and what is stated beyond its end.
pub fn entry(list: &[u32], i: usize, stated: u32) -> u32
    ensures { result ≡ get_or list.now i stated }
{
    list.get(i).copied().unwrap_or(stated)
}

// The next place of a list of n entries, if one is used; a place at its end stays.
pub fn used(uses: bool, i: usize, n: usize) -> usize
    ensures { result ≡ used_of uses i n }
{
    if uses && i < n { i + 1 } else { i }
}

// The key of a job with its deadline at `due`: the smaller goes first. The policy is a number, as the rules have it, and any number has a
// key: check 1 says which are policies.
pub fn key(policy: u32, r: Row, due: u64) -> u64
    ensures { result ≡ key_of policy r due }
{
    match policy {
        1 => r.priority as u64,
        2 => r.period as u64,
        3 => r.deadline as u64,
        _ => due,
    }
}

// A job that needs and has executed so much, after so many slots more; never above what it needs.
pub fn worked(need: Executed, done: Executed, more: u32) -> Executed
    ensures { result ≡ worked_of need done more }
{
    if more < need.0.saturating_sub(done.0) {
        Executed(done.0 + more)
    } else {
        need
    }
}

// What is said of a new job, if it has anything to execute: one that has nothing is complete.
pub fn open(need: Executed, x: u64) -> u64
    ensures { result ≡ open_of need x }
{
    if need.0 == 0 { NEVER } else { x }
}

// The slot before was this same job's: its task's, and the job is no new one, whose next release would be a whole period away.
pub fn continues(last: usize, at: usize, release: u64, whole: u64) -> bool
    ensures { result ≡ continues_of last at release whole }
{
    last == at && release < whole
}

// The stated delay: start while it has executed none, resume once it has executed some.
pub fn delay(r: Row, e: Executed) -> Loading
    ensures { result ≡ delay_of r e }
{
    Loading(if e.0 == 0 { r.start } else { r.resume })
}

// The loading to do: what is left of it, or the lesser of the given length and the delay where it begins.
pub fn begun(again: bool, left: Loading, len: u32, d: Loading) -> Loading
    ensures { result ≡ begun_of again left len d }
{
    if again { left } else { Loading(len.min(d.0)) }
}

// A loading of stated length above 0 begins.
pub fn begins(again: bool, d: Loading) -> bool
    ensures { result ≡ begins_of again d }
{
    !again && 0 < d.0
}
