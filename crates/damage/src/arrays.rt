// Sent arrays, and damage to them.
ghost use Rattle.std.specs.Prelude.{◌≤◌, ◌<◌};
ghost use Rattle.second.specs.Working.Loops.{Below};

use crate::chance::Chance;
use crate::lines::{Hit, damaged_by, flipped, hit_some};
use second::arrays::Cells;
use second::codes::Code;
use second::codewords::Line;

// The array of a message by chance.
pub fn make_sent(code: Code, chance: &mut Chance, cells: &mut Cells)
    ensures { Below 2 cells.old → Below 2 cells.new }
{
    for i in 0..code.area() {
        cells[i] = chance.below(2) as u8;
    }
    code.encode_array(cells);
}

// Kinds of damage.
#[derive(Clone, Copy, PartialEq, Eq, Debug)]
pub enum Damage {
    RowsAtTheLimit,
    ColumnsAtTheLimit,
    RowsWithin,
    SomeRowsLost,
    AllByChance,
    ColumnsReversed,
    RowsReversed,
    // So many wrong and so many unsure cells in a line, in the mean.
    Scattered { wrong: usize, erased: usize },
}

pub const DAMAGES: [Damage; 17] = [
    Damage::RowsAtTheLimit,
    Damage::ColumnsAtTheLimit,
    Damage::RowsWithin,
    Damage::SomeRowsLost,
    Damage::AllByChance,
    Damage::ColumnsReversed,
    Damage::RowsReversed,
    Damage::Scattered {
        wrong: 0,
        erased: 0,
    },
    Damage::Scattered {
        wrong: 1,
        erased: 0,
    },
    Damage::Scattered {
        wrong: 4,
        erased: 0,
    },
    Damage::Scattered {
        wrong: 1,
        erased: 2,
    },
    Damage::Scattered {
        wrong: 0,
        erased: 8,
    },
    Damage::Scattered {
        wrong: 0,
        erased: 64,
    },
    Damage::Scattered {
        wrong: 1,
        erased: 5,
    },
    Damage::Scattered {
        wrong: 2,
        erased: 3,
    },
    Damage::Scattered {
        wrong: 3,
        erased: 0,
    },
    Damage::Scattered {
        wrong: 0,
        erased: 4,
    },
];

// Line i of those that are damaged.
fn damaged_line(damage: Damage, i: usize, code: Code, chance: &mut Chance, line: Line) -> Line
    ensures { Below 3 line → Below 3 result }
{
    match damage {
        Damage::RowsAtTheLimit | Damage::ColumnsAtTheLimit => {
            hit_some(Hit::Unsure, 5 + i % 3, code, chance, line)
        }
        Damage::AllByChance => hit_some(Hit::AnyCell, 200, code, chance, line),
        Damage::SomeRowsLost if i % 5 == 0 => hit_some(Hit::AnyCell, 200, code, chance, line),
        _ => {
            // within the condition under which a line is restored: twice the wrong cells plus the unsure ones is below 6
            let wrong = chance.below(3);
            let erased = chance.below(6 - 2 * wrong);
            damaged_by(wrong, erased, code, chance, line)
        }
    }
}

// The lines of one way.
#[derive(Clone, Copy, PartialEq, Eq, Debug)]
enum Way {
    Across,
    Down,
}

impl Way {
    // The first of the rows or of the columns.
    fn first_line(self, code: Code) -> usize
        ensures { result ≤ code.n }
    {
        match self {
            Way::Across => 0,
            Way::Down => code.n,
        }
    }
}

fn damage_lines(way: Way, damage: Damage, code: Code, chance: &mut Chance, cells: &mut Cells)
    ensures { Below 3 cells.old → Below 3 cells.new }
{
    let first = way.first_line(code);
    for i in 0..code.n {
        let line = damaged_line(damage, i, code, chance, code.take_line(first + i, cells));
        code.put_line(first + i, line, cells);
    }
}

// The rows, or the columns, in reverse order: they are codewords still, and the lines of the other way mostly are not.
fn reverse(way: Way, code: Code, cells: &mut Cells)
    ensures { Below 3 cells.old → Below 3 cells.new }
{
    let first = way.first_line(code);
    let old = *cells;
    for i in 0..code.n {
        let line = code.take_line(first + (code.n - 1 - i), &old);
        code.put_line(first + i, line, cells);
    }
}

fn damaged_cell(cell: u8, drawn: usize, wrong: usize, erased: usize) -> u8
    ensures { cell < 3 → result < 3 }
{
    if drawn < wrong {
        flipped(cell)
    } else if drawn - wrong < erased {
        2
    } else {
        cell
    }
}

fn scatter(wrong: usize, erased: usize, code: Code, chance: &mut Chance, cells: &mut Cells)
    ensures { Below 3 cells.old → Below 3 cells.new }
{
    for i in 0..code.area() {
        let drawn = chance.below(code.n);
        cells[i] = damaged_cell(cells[i], drawn, wrong, erased);
    }
}

pub fn damage_array(damage: Damage, code: Code, chance: &mut Chance, cells: &mut Cells)
    ensures { Below 3 cells.old → Below 3 cells.new }
{
    match damage {
        Damage::Scattered { wrong, erased } => scatter(wrong, erased, code, chance, cells),
        Damage::RowsReversed => reverse(Way::Across, code, cells),
        Damage::ColumnsReversed => reverse(Way::Down, code, cells),
        Damage::ColumnsAtTheLimit => damage_lines(Way::Down, damage, code, chance, cells),
        _ => damage_lines(Way::Across, damage, code, chance, cells),
    }
}

// ---- arrays that fail one of the tests of closed alone, and that decoding mostly leaves as they are

#[derive(Clone, Copy, PartialEq, Eq, Debug)]
pub enum AlmostClosed {
    RowsOff,
    ColumnsOff,
    CellsUnsure,
}

pub const ALMOST_CLOSED: [AlmostClosed; 3] = [
    AlmostClosed::RowsOff,
    AlmostClosed::ColumnsOff,
    AlmostClosed::CellsUnsure,
];

// A codeword by chance: a row of a sent array.
fn any_codeword(code: Code, chance: &mut Chance) -> Line
    ensures { Below 2 result }
{
    let mut room = [0u8; 16384];
    make_sent(code, chance, &mut room);
    code.take_line(0, &room)
}

fn crossed_cell(down: u8, across: u8, mark: u8) -> u8
    ensures { across < 3 → result < 3 }
{
    if down == 1 {
        across
    } else if mark == 1 {
        2
    } else {
        0
    }
}

// The line across where the cell of the line down is 1; else zeros, of which the marked cells are unsure.
fn crossed_line(code: Code, down: u8, across: Line, marks: Line) -> Line
    ensures { Below 3 across → Below 3 result }
{
    let mut line = [0u8; 128];
    for j in 0..code.n {
        line[j] = crossed_cell(down, across[j], marks[j]);
    }
    line
}

// Every row is the line across or zeros, and so every column is the line down or zeros, but for unsure cells.
fn cross(code: Code, down: Line, across: Line, marks: Line, cells: &mut Cells)
    ensures { Below 3 across → Below 3 cells.old → Below 3 cells.new }
{
    for i in 0..code.n {
        code.put_line(i, crossed_line(code, down[i], across, marks), cells);
    }
}

// A line that is off has up to four wrong cells: mostly no codeword is within 3 of it, so that no message changes a cell. Unsure cells
// stay where there are 6 or more of them in each line that has any.
pub fn make_almost_closed(kind: AlmostClosed, code: Code, chance: &mut Chance, cells: &mut Cells)
    ensures { Below 3 cells.old → Below 3 cells.new }
{
    let one = any_codeword(code, chance);
    let other = any_codeword(code, chance);
    let off = hit_some(Hit::Flipped, 4, code, chance, other);
    let unmarked = [0u8; 128];
    match kind {
        AlmostClosed::RowsOff => cross(code, one, off, unmarked, cells),
        AlmostClosed::ColumnsOff => cross(code, off, one, unmarked, cells),
        AlmostClosed::CellsUnsure => cross(code, one, other, off, cells),
    }
}
