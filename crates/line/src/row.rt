// A lent row of cells beside its packed line.
ghost use Rattle.std.specs.Prelude.{◌≡◌, ◌%◌, length};
ghost use Rattle.line.specs.Working.Rows.{Updated};

use crate::packed::Line;
use words::word::is_zero;

// A row that holds `old` made to hold `new`; most rows of a late half stay as they are and are not written.
pub fn update_row(row: &mut [u8], old: Line, new: Line)
    requires { length row.old % 8 ≡ 0 }
    ensures { Updated old new row.old row.new }
{
    if !is_zero(old.differing(new)) {
        new.unpack(row)
    }
}
