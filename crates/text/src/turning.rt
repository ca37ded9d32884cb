// Characters and cells, turned into each other.
ghost use Rattle.std.specs.Prelude.{◌≡◌, ℕ, map, length};
ghost use Rattle.text.specs.Text.{cell_of, char_of};

pub fn cell_of(character: u8) -> u8
    ensures { result ≡ cell_of character }
{
    match character {
        b'1' => 1,
        b'?' => 2,
        _ => 0,
    }
}

pub fn char_of(cell: u8) -> u8
    ensures { result ≡ char_of cell }
{
    match cell {
        0 => b'0',
        1 => b'1',
        _ => b'?',
    }
}

// A line, each byte of it turned by the closure, into a slice of its length.
pub fn turn_line<F: Fn(u8) -> u8>(by: F, line: &[u8], turned: &mut [u8])
    requires room { length turned.old ≡ length line.now }
    requires calls { F.IsAlwaysCallable by }
    ensures { (f : ℕ → ℕ) → ((c x : ℕ) → F.post by c x → x ≡ f c) → turned.new ≡ map f line.now }
{
    for (i, byte) in line.iter().enumerate() {
        turned[i] = by(*byte);
    }
}
