// A job that joins, and numbers that carry their row.
ghost use Rattle.std.specs.Prelude.{◌≡◌, ◌≤◌, ◌<◌};
ghost use Rattle.machine.specs.Turns.{tagged_of, joined_of};

use rules::{Executed, Row};

// A time or a key with its row: no two are equal, the least is of the smallest row of equal ones, and each tells whose it is.
pub fn tagged(x: u64, i: usize) -> u64
    requires { (i < 16) × (x ≤ 562949953421312) }
    ensures { result ≡ tagged_of x i }
{
    x * 16 + i as u64
}

// A new job: what it is to have; the next release, with its row; its deadline, and its key with its row, NEVER if it has nothing to
// execute.
#[derive(Clone, Copy)]
pub struct Joined {
    pub need: Executed,
    pub release: u64,
    pub due: u64,
    pub key: u64,
}

// The job of row i that is released at a time with a request.
pub fn join(policy: u32, r: Row, i: usize, time: u64, ask: u32) -> Joined
    requires { (i < 16) × (time ≤ 281474976710656) }
    ensures { result ≡ joined_of policy r i time ask }
{
    let n = Executed(ask.min(r.wcet));
    let due = time + r.deadline as u64;
    let key = tagged(slots::key(policy, r, due), i);
    Joined {
        need: n,
        release: tagged(time + r.period as u64, i),
        due: slots::open(n, due),
        key: slots::open(n, key),
    }
}
