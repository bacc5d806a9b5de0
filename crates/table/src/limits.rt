// The limits of a row, checks 6, 8, 9, 11 and 12 of document 01: each looks at one row.
ghost use Rattle.std.specs.Prelude.{◌≡◌};
ghost use Rattle.rules.specs.Checks.{within, id_wrong, time_wrong, priority_wrong, order_wrong, resume_wrong};

use rules::{Row, Table};

// x is 1 to hi.
pub fn from_one(x: u32, hi: u32) -> bool
    ensures { result ≡ within 1 hi x }
{
    (1..=hi).contains(&x)
}

pub fn id_wrong(r: Row) -> bool
    ensures { result ≡ id_wrong r }
{
    !from_one(r.id, Table::MAX_ID)
}

pub fn time_wrong(r: Row) -> bool
    ensures { result ≡ time_wrong r }
{
    Table::MAX_TIME < r.offset
        || !from_one(r.wcet, Table::MAX_TIME)
        || !from_one(r.deadline, Table::MAX_TIME)
        || !from_one(r.period, Table::MAX_TIME)
        || Table::MAX_TIME < r.start
        || Table::MAX_TIME < r.resume
}

pub fn priority_wrong(r: Row) -> bool
    ensures { result ≡ priority_wrong r }
{
    !from_one(r.priority, Table::MAX_ID)
}

pub fn order_wrong(r: Row) -> bool
    ensures { result ≡ order_wrong r }
{
    r.deadline < r.wcet || r.period < r.deadline
}

pub fn resume_wrong(r: Row) -> bool
    ensures { result ≡ resume_wrong r }
{
    r.start < r.resume
}
