// Damage to a line: cells that are wrong, and cells that are unsure.
ghost use Rattle.std.specs.Prelude.{◌≤◌, ◌<◌, length, IfSome};
ghost use Rattle.second.specs.Working.Loops.{Below};

use crate::chance::Chance;
use second::codes::Code;
use second::codewords::Line;

// What becomes of a cell that is hit. It is flipped: one that is hit twice is right again, and an unsure one stays unsure. Or it becomes
// any bit, or any cell. Or the first known cell from there on, round the end of the line, becomes unsure.
#[derive(Clone, Copy, PartialEq, Eq, Debug)]
pub enum Hit {
    Flipped,
    AnyBit,
    AnyCell,
    Unsure,
}

fn first_known(cells: &[u8]) -> Option<usize>
    ensures { IfSome result (λ place. place < length cells.now) }
{
    cells.iter().position(|cell| *cell != 2)
}

fn erase_from(code: Code, from: usize, line: &mut Line)
    requires { (from ≤ code.n) × (from < 128) }
    ensures { Below 3 line.old → Below 3 line.new }
{
    let at = match first_known(&line[from..code.n]) {
        Some(place) => from + place,
        None => first_known(&line[..from]).unwrap_or(from),
    };
    line[at] = 2;
}

// The other value of a known cell.
pub fn flipped(cell: u8) -> u8
    ensures { cell < 3 → result < 3 }
{
    if cell == 2 { 2 } else { cell ^ 1 }
}

fn hit_cell(how: Hit, code: Code, i: usize, chance: &mut Chance, line: &mut Line)
    requires { (i ≤ code.n) × (i < 128) }
    ensures { Below 3 line.old → Below 3 line.new }
{
    match how {
        Hit::Unsure => erase_from(code, i, line),
        Hit::Flipped => line[i] = flipped(line[i]),
        Hit::AnyBit => line[i] = (chance.below(6) % 2) as u8,
        Hit::AnyCell => line[i] = (chance.below(6) % 3) as u8,
    }
}

// The line with so many cells hit.
pub fn hit_some(how: Hit, many: usize, code: Code, chance: &mut Chance, line: Line) -> Line
    ensures { Below 3 line → Below 3 result }
{
    let mut other = line;
    for _ in 0..many {
        let i = chance.below(code.n);
        hit_cell(how, code, i, chance, &mut other);
    }
    other
}

// So many wrong, and so many unsure.
pub fn damaged_by(wrong: usize, erased: usize, code: Code, chance: &mut Chance, sent: Line) -> Line
    ensures { Below 3 sent → Below 3 result }
{
    let other = hit_some(Hit::Flipped, wrong, code, chance, sent);
    hit_some(Hit::Unsure, erased, code, chance, other)
}
