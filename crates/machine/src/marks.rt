// The state at a mark Omax + k × H, as far as it is compared with that at the next: executed slots of each task, the last job, its
// loading left.
ghost use Rattle.std.specs.Prelude.{◌≡◌, true, false, ◌≤◌};
ghost use Rattle.machine.specs.Machine.{Again};

use rules::{Executed, Loading};

// One place for each row, in memory of a fixed size; last is 0 for none, as in the state.
#[derive(Clone, Copy)]
pub struct Mark {
    pub executed: [Executed; 16],
    pub last: usize,
    pub left: Loading,
}

// Is a mark's state that of the mark before, if there is one, on the tasks of so many rows? A derived == would look at all sixteen places.
pub fn same(rows: usize, here: Mark, was: Option<Mark>) -> bool
    requires { rows ≤ 16 }
    ensures alike { result ≡ true → Again rows here was }
    ensures unlike { result ≡ false → Again rows here was → ⊥ }
{
    match was {
        Some(m) => here.last == m.last
            && here.left == m.left
            && here.executed[..rows] == m.executed[..rows],
        None => false,
    }
}
