// The check sums of a packed word.
ghost use Rattle.laws.specs.Digits.{digits};
ghost use Rattle.field.specs.Working.Checks.{IsSyndrome};
ghost use Rattle.words.specs.Working.Word.{value, width};

use crate::tables::FieldTables;
use words::word::Word;

// The sum of α^i, the sum of α^(3i), and the parity.
#[derive(Clone, Copy)]
pub struct Syndrome {
    pub s1: u16,
    pub s3: u16,
    pub parity: u16,
}

impl FieldTables<'_> {
    // A sum of weights holds the three sums side by side.
    pub fn syndrome(&self, word: &Word) -> Syndrome
        ensures { IsSyndrome self.now.degree (digits width (value word.now)) result }
    {
        let sum = self.weight_sum(word);
        Syndrome {
            s1: sum % 128,
            s3: sum / 128 % 128,
            parity: sum / 16384,
        }
    }
}
