// The rows of an array packed in words.
ghost use Rattle.std.specs.Prelude.{◌<◌};
ghost use Rattle.degree.specs.Degree.{size};
ghost use Rattle.words.specs.Working.Word.{width};
ghost use Rattle.array.specs.Working.PackedRows.{Held, Empty, LineIn, LinePut, RowsTurned};
ghost use Rattle.array.specs.Working.Steps.{IsArray};

use degree::{Degree, size_of};
use line::packed::Line;
use words::word::grid::Grid;

// The words of all rows: their ones, and their erasures.
#[derive(Clone, Copy)]
pub struct PackedRows {
    ones: Grid,
    erased: Grid,
}

impl PackedRows {
    // No cell is packed yet.
    pub fn empty() -> PackedRows
        ensures { Empty result }
    {
        PackedRows {
            ones: Grid::zero(),
            erased: Grid::zero(),
        }
    }

    // Line i.
    pub fn line(&self, i: usize) -> Line
        requires { i < width }
        ensures { LineIn self.now i result }
    {
        Line::new(self.ones.word(i), self.erased.word(i))
    }

    // Line i is made another.
    pub fn put(&mut self, i: usize, l: Line)
        requires { i < width }
        ensures { LinePut self.old i l self.new }
    {
        self.ones.put(i, l.ones);
        self.erased.put(i, l.erased);
    }

    // The rows of an array are packed, into words that are 0.
    pub fn pack(&mut self, d: Degree, cells: &[u8])
        requires { IsArray d cells.now × Empty self.old }
        ensures { Held (size d) cells.now self.new }
    {
        let n = size_of(d);
        for i in 0..n {
            let at = i * n;
            let l = Line::pack(&cells[at..at + n]);
            self.put(i, l);
        }
    }

    // Rows become columns.
    pub fn transpose(&mut self, d: Degree)
        ensures { RowsTurned (size d) self.old self.new }
    {
        let n = size_of(d);
        self.ones.transpose(n);
        self.erased.transpose(n);
    }
}
