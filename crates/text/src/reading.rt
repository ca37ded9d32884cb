// What is read: the first line, the tests of the lines after it, and their cells.
ghost use Rattle.std.specs.Prelude.{◌≡◌, MatchOption, map, ◌+◌, ◌-◌, ◌*◌, ◌≤◌, length};
ghost use Rattle.laws.specs.Tests.{every};
ghost use Rattle.text.specs.Text.{byte, first_line, shaped, known, cell_of, cells_of};
ghost use Rattle.text.specs.Working.Characters.{placed, is_known};

use crate::turning::{cell_of, turn_line};

// The degree that the first line says, if that is just a character and a newline.
pub fn first_line(text: &[u8]) -> Option<u64>
    ensures { MatchOption result (first_line text.now ≡ 0) (λ degree. degree ≡ first_line text.now) }
{
    if text.len() < 2 || text[1] != b'\n' {
        None
    } else {
        Some(u64::from(text[0].saturating_sub(b'0')))
    }
}

// That n is at most 128 is asked, so that no place in the text wraps; with the degree in its place each function would look n up anew.

// Is byte p a newline exactly if it should be one?
fn is_placed(n: usize, p: usize, byte: u8) -> bool
    requires { n ≤ 128 }
    ensures { result ≡ placed n p byte }
{
    (byte == b'\n') == (p % (n + 1) == n)
}

// Is every newline where it should be? All are looked at, for then the machine takes many at a time.
fn all_placed(n: usize, text: &[u8]) -> bool
    requires { n ≤ 128 }
    ensures { result ≡ every (λ p. placed n p (byte text.now p)) (length text.now) }
{
    let mut all = true;
    for (p, byte) in text.iter().enumerate() {
        all &= is_placed(n, p, *byte);
    }
    all
}

// Test 3: n lines of n cells and a newline. No byte is read where their total is wrong.
pub fn is_shaped(n: usize, text: &[u8]) -> bool
    requires { n ≤ 128 }
    ensures { result ≡ shaped n text.now }
{
    if text.len() == n * (n + 1) {
        all_placed(n, text)
    } else {
        false
    }
}

// A newline, or the character of a cell.
fn is_known_byte(byte: u8) -> bool
    ensures { result ≡ is_known byte }
{
    (byte == b'\n') | (byte == b'0') | (byte == b'1') | (byte == b'?')
}

// Test 4: no character but a newline, 0, 1 and ?. All are looked at, for then the machine takes many at a time.
pub fn is_known(text: &[u8]) -> bool
    ensures { result ≡ known text.now }
{
    let mut all = true;
    for byte in text {
        all &= is_known_byte(*byte);
    }
    all
}

// The cells of n lines, each without its newline.
pub fn read_cells(n: usize, text: &[u8], cells: &mut [u8])
    requires { (n ≤ 128) × (length text.now ≡ n * (n + 1)) × (length cells.old ≡ n * n) }
    ensures { cells.new ≡ cells_of n text.now }
{
    for i in 0..n {
        let from = i * (n + 1);
        let to = i * n;
        turn_line(
            |character| cell_of(character),
            &text[from..from + n],
            &mut cells[to..to + n],
        );
    }
}
