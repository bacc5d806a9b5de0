// A reply as one number: the kind in the lowest place, then the number and the place.
ghost use Rattle.std.specs.Prelude.{◌≡◌, ℕ};
ghost use Rattle.boundary.specs.Packed.{kind_number, packed_miss, packed_refusal, packed, packed_schedule, packed_write, SmallMiss, SmallRefusal, Small, SmallSchedule, SmallWrite};

use rules::{Refusal, ScheduleReply, Verdict};

// The kinds of a reply.
#[derive(Clone, Copy, Debug, PartialEq, Eq)]
pub enum Kind {
    Accepted,
    Missed,
    Undecided,
    Refused,
    Filled,
    Written,
}

impl Kind {
    // The number that the C header has for it.
    fn number(self) -> u64
        ensures { result ≡ kind_number self }
    {
        match self {
            Kind::Accepted => 1,
            Kind::Missed => 2,
            Kind::Undecided => 3,
            Kind::Refused => 4,
            Kind::Filled => 5,
            Kind::Written => 6,
        }
    }
}

// Room for a kind, for an id and for the number of a refusal.
const KINDS: u64 = 16;

const IDS: u64 = 256;

const REFUSALS: u64 = 32;

// A reply that crosses as one number, where it is small enough.
pub trait Reply {
    ghost number: { Self → ℕ };

    ghost small: { Self → Type 0 };

    fn pack(self) -> u64
        requires { small self }
        ensures { result ≡ number self };
}

impl Reply for Verdict {
    ghost number = { packed };

    ghost small = { Small };

    fn pack(self) -> u64 {
        match self {
            Verdict::Accepted(n) => n * KINDS + Kind::Accepted.number(),
            Verdict::Missed { time, id } => missed(time, id),
            Verdict::Undecided => Kind::Undecided.number(),
            Verdict::Refused { number, place } => refused(number, place),
        }
    }
}

impl Reply for ScheduleReply {
    ghost number = { packed_schedule };

    ghost small = { SmallSchedule };

    fn pack(self) -> u64 {
        match self {
            ScheduleReply::Filled => Kind::Filled.number(),
            ScheduleReply::Missed { time, id } => missed(time, id),
            ScheduleReply::Refused { number, place } => refused(number, place),
        }
    }
}

impl Reply for Result<u64, Refusal> {
    ghost number = { packed_write };

    ghost small = { SmallWrite };

    fn pack(self) -> u64 {
        match self {
            Ok(n) => n * KINDS + Kind::Written.number(),
            Err(f) => refused(f.number, f.place),
        }
    }
}

fn missed(time: u64, id: u32) -> u64
    requires { SmallMiss time id }
    ensures { result ≡ packed_miss time id }
{
    (time * IDS + id as u64) * KINDS + Kind::Missed.number()
}

fn refused(number: u32, place: u64) -> u64
    requires { SmallRefusal number place }
    ensures { result ≡ packed_refusal number place }
{
    (place * REFUSALS + number as u64) * KINDS + Kind::Refused.number()
}
