// The C boundary: the replies of the checker as thin extern "C" functions over numbers and slices. Any arguments have a reply:
// no function here requires anything. host/ottersprawl.h declares them for C.
#![tactic(auto)]

ghost use Rattle.rules.specs.Sources.{text_source};
ghost use Rattle.boundary.specs.Crossing.{VerdictCrosses, RespondsTo, ResponsesCross, ScheduleCrosses, AsRunCrosses, IdsCross};

use crate::pack::Reply;
use rules::{Refusal, Verdict};
use table::TableCheck;

mod little;
mod pack;

// The bytes that responses are lent: four a number.
const RESPONSES_LEN: usize = 64;

// Is the table on time under this policy? It spends an allowance of slots.
#[unsafe(no_mangle)]
#[tactic(auto, using(crate::proofs::Bounds::replies))]
pub extern "C" fn otter_verdict(policy: u32, allowance: u64, text: &[u8]) -> u64
    ensures { VerdictCrosses policy allowance (text_source text.now) result }
{
    checker::verdict(policy, allowance, text).pack()
}

// The verdict; if it is accepted, the lent bytes hold the worst responses in ascending id, four bytes each.
#[unsafe(no_mangle)]
#[tactic(auto, using(crate::proofs::Bounds::replies))]
pub extern "C" fn otter_responses(
    policy: u32,
    allowance: u64,
    text: &[u8],
    responses: &mut [u8],
) -> u64
    ensures { ResponsesCross policy allowance (text_source text.now) responses.old responses.new result }
{
    respond(policy, allowance, text, responses).pack()
}

// Checks 1 and 2 ask for no text, and come before it is read. The checker is lent numbers of our own, and only where it accepts are bytes
// written: a contract sees values and not stores, but memory that may not be written to does.
fn respond(policy: u32, allowance: u64, text: &[u8], responses: &mut [u8]) -> Verdict
    ensures { RespondsTo policy allowance (text_source text.now) responses.old responses.new result }
{
    if table::policy_wrong(policy) {
        return Refusal::from(TableCheck::Policy).into();
    }
    if responses.len() < RESPONSES_LEN {
        return Refusal::from(TableCheck::Buffer).into();
    }
    let source = table_csv::read_rows(text);
    let rows = source.map_or(0, |read| read.count);
    let mut numbers = [0u32; 16];
    let reply = checker::responses_of(policy, allowance, source, &mut numbers);
    let held = match reply {
        Verdict::Accepted(_) => rows,
        _ => 0,
    };
    little::write(&numbers[..held], responses);
    reply
}

// Two bytes a slot, id and kind, of the schedule.
#[unsafe(no_mangle)]
#[tactic(auto, using(crate::proofs::Bounds::replies))]
pub extern "C" fn otter_schedule(policy: u32, text: &[u8], slots: &mut [u8]) -> u64
    ensures { ScheduleCrosses policy (text_source text.now) slots.old slots.new result }
{
    checker::schedule(policy, text, slots).pack()
}

// Two bytes a slot, id and kind, of the run with these requests and loading lengths.
#[unsafe(no_mangle)]
#[tactic(auto, using(crate::proofs::Bounds::replies))]
pub extern "C" fn otter_as_run(
    policy: u32,
    text: &[u8],
    requests: &[u32],
    loadings: &[u32],
    slots: &mut [u8],
) -> u64
    ensures { AsRunCrosses policy (text_source text.now) requests.now loadings.now slots.old slots.new result }
{
    checker::as_run(policy, text, requests, loadings, slots).pack()
}

// The ids in ascending order, a byte each, as the responses are.
#[unsafe(no_mangle)]
#[tactic(auto, using(crate::proofs::Bounds::replies))]
pub extern "C" fn otter_ids(text: &[u8], ids: &mut [u8]) -> u64
    ensures { IdsCross (text_source text.now) ids.old ids.new result }
{
    checker::ids(text, ids).pack()
}
