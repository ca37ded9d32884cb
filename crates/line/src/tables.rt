// The tables that the decoding of a line reads. They are made once for a decoding, and lent to all that read them.
use field::tables::{FieldEntries, FieldTables};

// What they hold is known to the field part alone.
pub type LineTables<'a> = FieldTables<'a>;

pub type LineEntries = FieldEntries;
