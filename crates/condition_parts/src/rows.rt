// The table of connectives.
ghost use Rattle.std.specs.Prelude.{◌≡◌, ◌<◌, length, slice_set};
ghost use Rattle.conditions.specs.Table.{entry};

use conditions::table::{Connective, TableRow};

// The row of a connective: the atoms of its parts.
pub fn put_row(table: &mut [TableRow], row: usize, kind: Connective, left: usize, right: usize)
    requires { (row < length table.old) × (left < 65536) × (right < 65536) }
    ensures { table.new ≡ slice_set table.old row (entry kind left right) }
{
    table[row] = TableRow {
        kind,
        left: left as u16,
        right: right as u16,
    };
}
