// The machine: the loop that goes from event to event through a run of a table, with its state, its marks and the bytes it paints.
// It serves every reply: verdict and responses lend it no bytes and no lists, and a profile brings another system. The checker makes
// replies of where it stopped.
#![tactic(auto)]

ghost use Rattle.std.specs.Prelude.{◌≡◌, ◌⊎◌, ◌≤◌};
ghost use Rattle.slots.specs.Jobs.{never};
ghost use Rattle.machine.specs.Machine.{Sound, FirstAt, Ran, PaintedRun};

use marks::Mark;
use rules::{Executed, Loading, Table};

mod join;
mod least;
mod marks;
pub mod paint;
mod state;
mod turn;

// Why a run stopped.
#[derive(Clone, Copy, Debug, PartialEq, Eq)]
pub enum Why {
    // At a missed deadline, of this row.
    Missed(usize),
    // At a mark with the state of the mark before.
    Repeats,
    // At its end.
    Ended,
}

// Where a run stopped, and why; and the longest responses so far.
#[derive(Clone, Copy, Debug, PartialEq, Eq)]
pub struct Stop {
    pub worst: [u32; 16],
    pub time: u64,
    pub why: Why,
}

// The first row with its deadline at a time.
fn overdue(due: &[u64], time: u64) -> Option<usize>
    ensures { FirstAt due.now time result }
{
    due.iter().position(|d| *d == time)
}

// The run up to `end`: it stops before at a miss; and, where a first mark is given, which is Omax then, at a mark with the state of
// the mark before. Deadlines are tested first, and a mark's state is that before jobs join. The two lists are two slices, as C lends them;
// NEVER for the first mark is none, since a mark is compared with the time at each turn. Each end makes its Stop by itself: where branches
// join, a proof forgets what each of them knew.
pub fn run(
    t: &Table,
    policy: u32,
    first: u64,
    end: u64,
    requests: &[u32],
    loadings: &[u32],
    slots: &mut [u8],
) -> Stop
    requires sound { Sound t.now }
    requires first_mark { (first ≡ never) ⊎ (first ≡ t.now.omax) }
    requires end_bound { end ≤ 281474976710656 }
    ensures ran { Ran policy t.now requests.now loadings.now first end result }
    ensures painted_run { PaintedRun policy t.now requests.now loadings.now 0 result.time slots.old slots.new }
{
    let rows = t.count;
    let places = least::places(rows);
    let hyper = t.hyper as u64;
    let mut s = state::begin(&t.rows[..rows]);
    let mut was: Option<Mark> = None;
    let mut mark = first;
    let mut time: u64 = 0;
    loop {
        // a deadline of a job that is not complete
        if s.soonest == time {
            let row = overdue(&s.due[..rows], time).unwrap();
            return Stop {
                worst: s.worst,
                time,
                why: Why::Missed(row),
            };
        }
        // a mark: is its state that of the mark before?
        if mark == time {
            let here = Mark {
                executed: s.executed,
                last: s.last,
                left: s.left,
            };
            if marks::same(rows, here, was) {
                return Stop {
                    worst: s.worst,
                    time,
                    why: Why::Repeats,
                };
            }
            was = Some(here);
            mark = time + hyper;
            continue;
        }
        if time == end {
            return Stop {
                worst: s.worst,
                time,
                why: Why::Ended,
            };
        }
        // jobs join, the smaller row first
        while s.next / 16 == time {
            let i = (s.next % 16) as usize;
            let r = t.rows[i];
            let ask = slots::entry(requests, s.asked, r.wcet);
            let j = join::join(policy, r, i, time, ask);
            s.need[i] = j.need;
            s.executed[i] = Executed(0);
            s.release[i] = j.release;
            s.due[i] = j.due;
            s.key[i] = j.key;
            s.soonest = s.soonest.min(j.due);
            s.best = s.best.min(j.key);
            s.asked = slots::used(true, s.asked, requests.len());
            s.next = least::least(&s.release[..places]);
        }
        // nothing else happens before this time
        let stop = end.min(mark).min((s.next / 16).min(s.soonest));
        // every job is complete: idle
        if s.best == slots::NEVER {
            paint::stretch(slots, time as usize, (stop - time) as usize, 0, 0, 0);
            s.last = 0;
            s.left = Loading(0);
            time = stop;
            continue;
        }
        // the first job has the slots, as long as nothing happens and it is not complete
        let p = (s.best % 16) as usize;
        let r = t.rows[p];
        let e = s.executed[p];
        let n = s.need[p];
        let again = slots::continues(s.last, p + 1, s.release[p] / 16, time + r.period as u64);
        let l = turn::load(r, e, again, s.left, s.begun, loadings);
        let load = l.slots;
        let rest = n.0.saturating_sub(e.0);
        let full = time + load.0 as u64 + rest as u64;
        let d = slots::span(time, stop.min(full));
        paint::stretch(
            slots,
            time as usize,
            d as usize,
            p + 1,
            r.id,
            load.0 as usize,
        );
        s.begun = l.begun;
        // something happens first: it goes on from here, or is preempted
        if stop < full {
            s.executed[p] = slots::worked(n, e, d.saturating_sub(load.0));
            s.last = p + 1;
            s.left = Loading(load.0.saturating_sub(d));
            time = stop;
            continue;
        }
        // it is complete
        let took = r
            .period
            .saturating_sub(slots::span(full, s.release[p] / 16));
        let gone = s.due[p];
        s.executed[p] = n;
        s.worst[p] = s.worst[p].max(took);
        s.last = 0;
        s.left = Loading(0);
        s.due[p] = slots::NEVER;
        s.key[p] = slots::NEVER;
        s.soonest = least::without(&s.due[..places], gone, s.soonest);
        s.best = least::least(&s.key[..places]);
        time = full;
    }
}
