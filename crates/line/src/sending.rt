// A lent row of an array, beside its packed line.
ghost use Rattle.std.specs.Prelude.{◌%◌, ◌≡◌, length};
ghost use Rattle.words.specs.Working.Word.{value};
ghost use Rattle.line.specs.Working.SentRows.{SentRow};

use crate::messages::messages_of;
use crate::packed::Line;
use crate::row::update_row;
use crate::tables::LineTables;
use crate::tally::Tally;
use words::word::Word;

// A lent row, which y holds packed, replaced by its messages, which are handed back packed.
pub fn send_row(row: &mut [u8], y: Line, r: Line, filling: Word, tables: &LineTables) -> Tally<Line>
    requires { length row.old % 8 ≡ 0 }
    ensures { SentRow tables.now.degree y r (value filling) row.old row.new result }
{
    let sent = messages_of(y, r, filling, tables);
    update_row(row, y, sent.value);
    sent
}
