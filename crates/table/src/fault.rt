// The first check that fails, and its place, of those that ask for a row at fault. It is worked out where the one pass over the rows
// found that one fails.
ghost use Rattle.std.specs.Prelude.{◌≡◌};
ghost use Rattle.rules.specs.Checks.{fault, row_checks, first_fault};
ghost use Rattle.table.specs.Tables.{number_of, smallest_id, refusal_in};

use crate::limits;
use rules::{Refusal, Row};

// The checks that ask for a row at fault.
#[derive(Clone, Copy, Debug, PartialEq, Eq)]
pub enum RowCheck {
    Id,
    IdRepeated,
    Time,
    Priority,
    PriorityShared,
    Order,
    Resume,
}

// In their order.
const ROW_CHECKS: [RowCheck; 7] = [
    RowCheck::Id,
    RowCheck::IdRepeated,
    RowCheck::Time,
    RowCheck::Priority,
    RowCheck::PriorityShared,
    RowCheck::Order,
    RowCheck::Resume,
];

impl RowCheck {
    fn number(self) -> u32
        ensures { result ≡ number_of self }
    {
        match self {
            RowCheck::Id => 6,
            RowCheck::IdRepeated => 7,
            RowCheck::Time => 8,
            RowCheck::Priority => 9,
            RowCheck::PriorityShared => 10,
            RowCheck::Order => 11,
            RowCheck::Resume => 12,
        }
    }

    // It fails at the row r.
    #[tactic(auto, unfolding(rules::specs::Checks::fault))]
    fn fails_at(self, rows: &[Row], r: Row) -> bool
        ensures { result ≡ fault (number_of self) rows.now r }
    {
        match self {
            RowCheck::Id => limits::id_wrong(r),
            RowCheck::IdRepeated => 2 <= rows.iter().filter(|w| w.id == r.id).count(),
            RowCheck::Time => limits::time_wrong(r),
            RowCheck::Priority => limits::priority_wrong(r),
            RowCheck::PriorityShared => {
                2 <= rows.iter().filter(|w| w.priority == r.priority).count()
            }
            RowCheck::Order => limits::order_wrong(r),
            RowCheck::Resume => limits::resume_wrong(r),
        }
    }

    // The smallest id of the rows that it fails at.
    fn place(self, rows: &[Row]) -> Option<u32>
        ensures { result ≡ smallest_id (fault (number_of self) rows.now) rows.now }
    {
        rows.iter()
            .filter(|r| self.fails_at(rows, **r))
            .map(|r| r.id)
            .min()
    }
}

// The first of the row checks that fails.
pub fn first_fault(rows: &[Row]) -> Option<Refusal>
    ensures { result ≡ refusal_in (first_fault row_checks rows.now) }
{
    for check in ROW_CHECKS {
        if let Some(id) = check.place(rows) {
            return Some(Refusal {
                number: check.number(),
                place: id as u64,
            });
        }
    }
    None
}
