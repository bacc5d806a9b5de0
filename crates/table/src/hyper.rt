// The hyper-period, the least common multiple of the periods, one period at a time.
ghost use Rattle.std.specs.Prelude.{◌≡◌, ◌*◌, ◌≤◌, ◌<◌};
ghost use Rattle.table.specs.Tables.{Divisor, common_of};

use rules::Table;

// The greatest common divisor, by remainders until none is left: no index is counted.
fn divisor(h: u32, p: u32) -> u32
    requires { (0 < h) × (0 < p) }
    ensures { Divisor h p result }
{
    let mut a = h;
    let mut b = p;
    while b != 0 {
        let r = a % b;
        a = b;
        b = r;
    }
    a
}

// The least common multiple, if it is at most 100,000; else 100,001. Its divisor is taken with the larger one first: there is a
// remainder less to take.
#[tactic(auto, using(crate::proofs::Multiples::multiples))]
pub fn common(h: u32, p: u32) -> u32
    requires { (0 < h) × (0 < p) × (h * p ≤ 4294967295) }
    ensures { result ≡ common_of h p }
{
    let g = divisor(h.max(p), h.min(p));
    let m = h / g * p;
    m.min(Table::MAX_H + 1)
}
