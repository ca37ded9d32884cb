// Powers and products of elements, read off the tables.
ghost use Rattle.std.specs.Prelude.{◌≡◌, ◌<◌};
ghost use Rattle.degree.specs.Degree.{size, order};
ghost use Rattle.field.specs.Field.{power};
ghost use Rattle.field.specs.Working.Products.{product};

use crate::alpha::reduced;
use crate::tables::FieldTables;

impl FieldTables<'_> {
    // α^i.
    pub fn power(&self, i: usize) -> u16
        requires { i < order self.now.degree }
        ensures { result ≡ power self.now.degree i }
    {
        self.weight(i) % 128
    }

    // x times y: the exponents of two powers add.
    pub fn product(&self, x: u16, y: u16) -> u16
        requires { (x < size self.now.degree) × (y < size self.now.degree) }
        ensures { result ≡ product self.now.degree x y }
    {
        if x == 0 {
            0
        } else if y == 0 {
            0
        } else {
            let i = self.log(x);
            let j = self.log(y);
            let k = reduced(self.degree, i + j);
            self.power(k)
        }
    }
}
