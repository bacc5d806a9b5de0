// The checker: verdict, responses, schedule and as run, the four replies of the product, and ids, each over a text, and over whatever
// else a table is read from (`verdict_of` and so on). Whatever the input, each has a reply, and its contract is the definition of the
// rules. The C boundary and the programs use it.
#![tactic(auto)]

ghost use Rattle.std.specs.Prelude.{◌≡◌, MatchResult};
ghost use Rattle.rules.specs.Sources.{Source, text_source, source_of};
ghost use Rattle.rules.specs.Verdicts.{VerdictIs, ResponsesAre};
ghost use Rattle.rules.specs.Schedules.{ScheduleIs, AsRunIs};
ghost use Rattle.rules.specs.Written.{IdsAre};
ghost use Rattle.reordering.specs.Alike.{Alike};
ghost use Rattle.checker.specs.Outcomes.{Passes, Fails};

use machine::Why;
use machine::paint::Kind;
use rules::{Refusal, RowsRead, ScheduleReply, Table, Verdict};

mod decide;
mod labels;

// Where no policy is asked: the checks are the same under each of the four.
const ANY_POLICY: u32 = 1;

// What a table is read from.
pub trait Readable {
    // What it is, as the rules see it.
    ghost source: { Self → Source };

    // What the checker keeps of it, which is read as the same table.
    fn read(self) -> Result<RowsRead, Refusal>
        ensures { Alike (source_of result) (source self) };
}

// What a reader has handed over.
impl Readable for Result<RowsRead, Refusal> {
    ghost source = { source_of };

    fn read(self) -> Result<RowsRead, Refusal> {
        self
    }
}

// A text.
impl Readable for &[u8] {
    ghost source = { λ text. text_source text.now };

    #[tactic(auto, using(reordering::specs::Alike::read_alike))]
    fn read(self) -> Result<RowsRead, Refusal> {
        table_csv::read_rows(self)
    }
}

// The table that is read, or the first check that fails: of the policy, of the lent buffer, which may be unfit, or of what is read. What
// decides or runs matches it by reference: a table that a pattern or `?` binds by value is copied.
#[tactic(auto, using(crate::proofs::InHand::check_in))]
fn checked<S: Readable>(policy: u32, unfit: bool, source: S) -> Result<Table, Refusal>
    ensures { MatchResult result (Passes policy unfit (S.source source)) (Fails policy unfit (S.source source)) }
{
    table::check(policy, unfit, source.read())
}

// OF WHATEVER IS READ

// Is the table on time under this policy? It spends an allowance of slots.
pub fn verdict_of<S: Readable>(policy: u32, allowance: u64, source: S) -> Verdict
    ensures { VerdictIs policy allowance (S.source source) result }
{
    match &checked(policy, false, source) {
        Ok(t) => decide::decide(t, policy, allowance).verdict,
        Err(f) => (*f).into(),
    }
}

// The verdict; if it is accepted, the lent numbers hold the worst responses in ascending id.
pub fn responses_of<S: Readable>(
    policy: u32,
    allowance: u64,
    source: S,
    numbers: &mut [u32],
) -> Verdict
    ensures { ResponsesAre policy allowance (S.source source) numbers.old numbers.new result }
{
    match &checked(policy, table::too_few(numbers.len()), source) {
        Ok(t) => {
            let o = decide::decide(t, policy, allowance);
            if let Verdict::Accepted(_) = o.verdict {
                numbers[..t.count].copy_from_slice(&o.worst[..t.count]);
            }
            o.verdict
        }
        Err(f) => (*f).into(),
    }
}

// Two bytes a slot, id and kind, of the run with these requests and loading lengths.
#[tactic(auto, using(crate::proofs::Written::as_run_filled, crate::proofs::Written::as_run_missed))]
pub fn as_run_of<S: Readable>(
    policy: u32,
    source: S,
    requests: &[u32],
    loadings: &[u32],
    slots: &mut [u8],
) -> ScheduleReply
    ensures { AsRunIs policy (S.source source) requests.now loadings.now slots.old slots.new result }
{
    match &checked(policy, table::slots_wrong(slots.len()), source) {
        Ok(t) => {
            let n = slots.len() / 2;
            let q = machine::run(t, policy, slots::NEVER, n as u64, requests, loadings, slots);
            if let Why::Missed(row) = q.why {
                machine::paint::fill(slots, q.time as usize, n, 0, Kind::Missed);
                return ScheduleReply::Missed {
                    time: q.time,
                    id: t.rows[row].id,
                };
            }
            ScheduleReply::Filled
        }
        Err(f) => (*f).into(),
    }
}

// Two bytes a slot, id and kind, of the schedule.
#[tactic(auto, using(crate::proofs::Written::schedule_as_run))]
pub fn schedule_of<S: Readable>(policy: u32, source: S, slots: &mut [u8]) -> ScheduleReply
    ensures { ScheduleIs policy (S.source source) slots.old slots.new result }
{
    as_run_of(policy, source, &[], &[], slots)
}

// Which ids the table has: as bytes in ascending order, as responses are.
#[tactic(auto, using(crate::proofs::Named::ids_written))]
pub fn ids_of<S: Readable>(source: S, ids: &mut [u8]) -> Result<u64, Refusal>
    ensures { IdsAre (S.source source) ids.old ids.new result }
{
    let t = checked(ANY_POLICY, table::too_few(ids.len()), source)?;
    labels::write_ids(&t.rows[..t.count], ids);
    Ok(t.count as u64)
}

// OF A TEXT, as a slice: an array, a Vec and a lent buffer are coerced to it, which no generic argument is

pub fn verdict(policy: u32, allowance: u64, text: &[u8]) -> Verdict
    ensures { VerdictIs policy allowance (text_source text.now) result }
{
    verdict_of(policy, allowance, text)
}

pub fn responses(policy: u32, allowance: u64, text: &[u8], numbers: &mut [u32]) -> Verdict
    ensures { ResponsesAre policy allowance (text_source text.now) numbers.old numbers.new result }
{
    responses_of(policy, allowance, text, numbers)
}

pub fn as_run(
    policy: u32,
    text: &[u8],
    requests: &[u32],
    loadings: &[u32],
    slots: &mut [u8],
) -> ScheduleReply
    ensures { AsRunIs policy (text_source text.now) requests.now loadings.now slots.old slots.new result }
{
    as_run_of(policy, text, requests, loadings, slots)
}

pub fn schedule(policy: u32, text: &[u8], slots: &mut [u8]) -> ScheduleReply
    ensures { ScheduleIs policy (text_source text.now) slots.old slots.new result }
{
    schedule_of(policy, text, slots)
}

pub fn ids(text: &[u8], ids: &mut [u8]) -> Result<u64, Refusal>
    ensures { IdsAre (text_source text.now) ids.old ids.new result }
{
    ids_of(text, ids)
}
