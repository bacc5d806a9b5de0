// The state of the loop, and where it begins.
ghost use Rattle.std.specs.Prelude.{◌≤◌, length};
ghost use Rattle.machine.specs.Begun.{Begun};

use rules::{Executed, Loading, Row};

// The state at a time, before jobs join. Of each task the time of the next release; of its newest job, while it is incomplete, the
// deadline and the key by which it goes first, and NEVER once it is complete; what it is to have and what it has executed; the
// longest response of the task's jobs. Releases and keys carry their row. Then the least of releases, deadlines and keys. last is the task
// that had the slot before, 0 for none and i + 1 for row i, as the rules number tasks. asked and begun are places in the lists.
// Arrays of numbers: of the layouts tried this is the fastest, and an Option of a deadline would be a test in each least.
#[derive(Clone, Copy)]
pub struct State {
    pub release: [u64; 16],
    pub due: [u64; 16],
    pub key: [u64; 16],
    pub need: [Executed; 16],
    pub executed: [Executed; 16],
    pub worst: [u32; 16],
    pub next: u64,
    pub soonest: u64,
    pub best: u64,
    pub last: usize,
    pub left: Loading,
    pub asked: usize,
    pub begun: usize,
}

// The state at time 0.
pub fn begin(rows: &[Row]) -> State
    requires { length rows.now ≤ 16 }
    ensures { Begun rows.now (length rows.now) result }
{
    let mut s = State {
        release: [slots::NEVER; 16],
        due: [slots::NEVER; 16],
        key: [slots::NEVER; 16],
        need: [Executed(0); 16],
        executed: [Executed(0); 16],
        worst: [0; 16],
        next: slots::NEVER,
        soonest: slots::NEVER,
        best: slots::NEVER,
        last: 0,
        left: Loading(0),
        asked: 0,
        begun: 0,
    };
    for (i, r) in rows.iter().enumerate() {
        let o = crate::join::tagged(r.offset as u64, i);
        s.release[i] = o;
        s.need[i] = Executed(r.wcet);
        s.executed[i] = Executed(r.wcet);
        s.next = s.next.min(o);
    }
    s
}
