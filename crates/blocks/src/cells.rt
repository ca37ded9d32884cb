// Rows and cells in bytes: four cells in a byte, two bits a cell, cell 0 lowest.
ghost use Rattle.std.specs.Prelude.{◌≡◌, [], ◌∷◌, ℕ, ◌+◌, ◌<◌, ◌≤◌, length, get_or, drop};
ghost use Rattle.words.specs.Working.Bytes.{joined};
ghost use Rattle.blocks.specs.Blocks.{rows_in, packed, unpacked};

use words::bytes::four;

// The rows that a block holds.
pub fn rows_in(block: usize) -> usize
    ensures { result ≡ rows_in block }
{
    if block == 2 { 2 } else { 31 }
}

// The cells of a byte, a byte each, joined: its bits are moved apart, four and four, then two and two.
pub fn four_cells(byte: u8) -> u64
    ensures { (result ≡ joined (unpacked (byte ∷ []))) × (byte < 256) }
{
    let x = byte as u64;
    let pairs = (x | (x << 12)) & 0x000f_000f;
    (pairs | (pairs << 6)) & 0x0303_0303
}

// Four cells as a byte. The factor moves cell i down by 6 i bits, beside the cell before it, and the four stand in bits 24 to 31.
pub fn packed_byte(cells: &[u8], at: usize) -> u8
    requires { (at + 4 ≤ length cells.now) × ((i : ℕ) → get_or cells.now i 0 < 4) }
    ensures { (result ∷ []) ≡ packed 1 (drop at cells.now) }
{
    let x = four(cells, at);
    (x * 0x0104_1040 / 0x0100_0000 % 0x100) as u8
}
