// What a job does once it has the slot: it loads, then executes.
ghost use Rattle.std.specs.Prelude.{◌≡◌};
ghost use Rattle.machine.specs.Turns.{load_of};

use rules::{Executed, Loading, Row};

// The loading to do, and the place in the list of loadings after it.
#[derive(Clone, Copy)]
pub struct ToLoad {
    pub slots: Loading,
    pub begun: usize,
}

// The job goes on with what is left of its loading, or begins one.
pub fn load(
    r: Row,
    e: Executed,
    again: bool,
    left: Loading,
    begun: usize,
    loadings: &[u32],
) -> ToLoad
    ensures { result ≡ load_of r e again left begun loadings.now }
{
    let stated = slots::delay(r, e);
    let len = slots::entry(loadings, begun, stated.0);
    let l = slots::begun(again, left, len, stated);
    ToLoad {
        slots: l,
        begun: slots::used(slots::begins(again, stated), begun, loadings.len()),
    }
}
