// One pass over the rows: does any row check fail, and what the table says besides its rows. So the rows come to the table or to its
// refusal in one place.
ghost use Rattle.std.specs.Prelude.{◌≡◌, ◌≤◌};
ghost use Rattle.table.specs.Tables.{row_wrong, survey_of, accepted_of, rows_read};

use crate::{TableCheck, ascending, fault, hyper, limits};
use rules::{Refusal, Row, RowsRead, Table};

// What a table says besides its rows: the largest offset and the hyper-period.
#[derive(Clone, Copy, Debug, PartialEq, Eq)]
pub struct Survey {
    pub omax: u32,
    pub hyper: u32,
}

impl Survey {
    // The table of these rows, which are in ascending id.
    fn table(self, t: RowsRead) -> Table
        ensures { result ≡ accepted_of t self.omax self.hyper }
    {
        let rows = t.rows;
        Table {
            rows,
            count: t.count,
            omax: self.omax,
            hyper: self.hyper,
        }
    }
}

// One of the checks that look at a single row fails.
fn row_wrong(r: Row) -> bool
    ensures { result ≡ row_wrong r }
{
    limits::id_wrong(r)
        || limits::time_wrong(r)
        || limits::priority_wrong(r)
        || limits::order_wrong(r)
        || limits::resume_wrong(r)
}

// None where a row check fails. Each id and priority is marked as it is met: nothing is looked for among the other rows.
fn surveyed(rows: &[Row]) -> Option<Survey>
    ensures { result ≡ survey_of rows.now }
{
    let mut ids = [false; 256];
    let mut priorities = [false; 256];
    let mut omax = 0;
    let mut hyper = 1;
    for r in rows {
        if row_wrong(*r) || ids[r.id as usize] || priorities[r.priority as usize] {
            return None;
        }
        ids[r.id as usize] = true;
        priorities[r.priority as usize] = true;
        omax = omax.max(r.offset);
        hyper = hyper::common(hyper, r.period);
    }
    Some(Survey { omax, hyper })
}

// The row checks and 13, of at most 16 rows. Which row check fails first, and where, is worked out apart. Rows that are in ascending id
// go into the table from where they were read: sorted by the same code, they would be copied once more.
pub fn checked(t: RowsRead) -> Result<Table, Refusal>
    requires { t.count ≤ 16 }
    ensures { result ≡ rows_read t }
{
    let rows = &t.rows[..t.count];
    let Some(survey) = surveyed(rows) else {
        // One fails, so there is a first.
        return Err(fault::first_fault(rows).unwrap());
    };
    if Table::MAX_H < survey.hyper {
        return Err(TableCheck::HyperPeriod.into());
    }
    if ascending::is_ascending(rows) {
        return Ok(survey.table(t));
    }
    Ok(survey.table(ascending::sorted(t)))
}
