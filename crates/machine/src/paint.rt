// Bytes of a schedule: two a slot, id and kind.
ghost use Rattle.std.specs.Prelude.{◌≡◌, ◌+◌, ◌≤◌};
ghost use Rattle.machine.specs.Paint.{byte_of, Painted, stretch_id, stretch_kind};

// What a slot is.
#[derive(Clone, Copy, Debug, PartialEq, Eq)]
pub enum Kind {
    Idle,
    Loading,
    Executing,
    // From a miss on.
    Missed,
}

impl Kind {
    // As the second byte of a slot says it.
    fn byte(self) -> u8
        ensures { result ≡ byte_of self }
    {
        match self {
            Kind::Idle => 0,
            Kind::Loading => 1,
            Kind::Executing => 2,
            Kind::Missed => 3,
        }
    }
}

// Slots from .. to, as far as the buffer has room for them.
pub fn fill(slots: &mut [u8], from: usize, to: usize, id: u8, kind: Kind)
    ensures { Painted (λ u. id) (λ u. byte_of kind) from to slots.old slots.new }
{
    let byte = kind.byte();
    for u in from..to.min(slots.len() / 2) {
        slots[u * 2] = id;
        slots[u * 2 + 1] = byte;
    }
}

// So many slots from one on, of the task at - 1 with this id, which loads first; idle where `at` is 0, as the rules number tasks.
pub fn stretch(slots: &mut [u8], from: usize, count: usize, at: usize, id: u32, load: usize)
    requires { from + count ≤ 18446744073709551615 }
    ensures { Painted (stretch_id at id) (stretch_kind from at load) from (from + count) slots.old slots.new }
{
    if !slots.is_empty() {
        lay(slots, from, count, at, id, load);
    }
}

// The same. A call of its own: most runs paint nothing, and the loop over events keeps its registers.
#[inline(never)]
fn lay(slots: &mut [u8], from: usize, count: usize, at: usize, id: u32, load: usize)
    requires { from + count ≤ 18446744073709551615 }
    ensures { Painted (stretch_id at id) (stretch_kind from at load) from (from + count) slots.old slots.new }
{
    if at == 0 {
        fill(slots, from, from + count, 0, Kind::Idle);
        return;
    }
    let l = load.min(count);
    let byte = (id % 256) as u8;
    fill(slots, from, from + l, byte, Kind::Loading);
    fill(slots, from + l, from + count, byte, Kind::Executing);
}
