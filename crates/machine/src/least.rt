// The least of an array of times or of keys, where unused places hold NEVER. Four places are looked at together: so the compiler
// has no chain of sixteen comparisons to wait for, and a small table has few places to look at.
ghost use Rattle.std.specs.Prelude.{◌≡◌, ◌≢◌, ◌≤◌};
ghost use Rattle.machine.specs.Least.{Places, LeastOf};

// The places that hold so many rows, in blocks of four.
pub fn places(rows: usize) -> usize
    requires { rows ≤ 16 }
    ensures { Places rows result }
{
    match rows {
        0..=4 => 4,
        5..=8 => 8,
        9..=12 => 12,
        _ => 16,
    }
}

// The least of whole blocks of four.
pub fn least(a: &[u64]) -> u64
    ensures { LeastOf a.now result }
{
    let mut m = slots::NEVER;
    for four in a.as_chunks::<4>().0 {
        let x = four[0].min(four[1]);
        let y = four[2].min(four[3]);
        m = m.min(x.min(y));
    }
    m
}

// The least once `gone` is no longer in the array, where it was m before.
pub fn without(a: &[u64], gone: u64, m: u64) -> u64
    ensures { (gone ≡ m → LeastOf a.now result) × (gone ≢ m → result ≡ m) }
{
    if gone == m { least(a) } else { m }
}
