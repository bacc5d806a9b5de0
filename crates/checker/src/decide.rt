// When it is decided: the run of the schedule up to the allowance, with its marks compared.
ghost use Rattle.machine.specs.Machine.{Sound};
ghost use Rattle.checker.specs.Outcomes.{Outcomes};

use machine::Why;
use rules::{Table, Verdict};

// 2^48 slots always decide: a larger allowance decides no more, and times stay small numbers.
const ENOUGH: u64 = 281_474_976_710_656;

// The verdict, and the longest responses up to it, which are read where it is accepted: as an Option they would be matched once more
// beside the verdict.
#[derive(Clone, Copy)]
pub struct Outcome {
    pub verdict: Verdict,
    pub worst: [u32; 16],
}

// The reply of a table that passed the checks.
pub fn decide(t: &Table, policy: u32, allowance: u64) -> Outcome
    requires { Sound t.now }
    ensures { Outcomes policy t.now allowance result }
{
    let q = machine::run(
        t,
        policy,
        t.omax as u64,
        allowance.min(ENOUGH),
        &[],
        &[],
        &mut [],
    );
    let verdict = match q.why {
        Why::Missed(row) => Verdict::Missed {
            time: q.time,
            id: t.rows[row].id,
        },
        Why::Repeats => Verdict::Accepted(q.time),
        Why::Ended => Verdict::Undecided,
    };
    let worst = q.worst;
    Outcome { verdict, worst }
}
