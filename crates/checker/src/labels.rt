// Which task each response is of.
ghost use Rattle.std.specs.Prelude.{◌≡◌, ◌++◌, ◌≤◌, length, drop};
ghost use Rattle.reordering.specs.All.{All};
ghost use Rattle.reordering.specs.Passed.{Fine};
ghost use Rattle.checker.specs.Outcomes.{ids_in};

use rules::Row;

// The ids of the rows into the first of the lent bytes.
pub fn write_ids(rows: &[Row], ids: &mut [u8])
    requires fine { All Fine rows.now }
    requires room { length rows.now ≤ length ids.old }
    ensures { ids.new ≡ ids_in rows.now ++ drop (length rows.now) ids.old }
{
    for (i, row) in rows.iter().enumerate() {
        ids[i] = row.id as u8;
    }
}
