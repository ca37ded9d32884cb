// The transpose of 64 words of 64 bits, in six stages of masked swaps.
ghost use Rattle.std.specs.Prelude.{◌≡◌, ◌+◌, ◌*◌, ◌<◌, ◌≤◌, T, length};
ghost use Rattle.words.specs.Working.Network.{upper, lower, masked, Swapped, Crossed, Turned};

// Bit j + c of x and bit c of y change places, for each c that m names.
fn exchange(x: u64, y: u64, j: usize, m: u64) -> (u64, u64)
    requires { j < 64 }
    ensures { (result.0 ≡ upper j m x y) × (result.1 ≡ lower j m x y) }
{
    let t = ((x >> j) ^ y) & m;
    (x ^ (t << j), y ^ t)
}

// That there are 64 numbers is asked, and no type says it: they are half of a grid's array, which is lent as a slice, and as an array
// of 64 it would be had only through an Option.

// A block of 2 j rows from g on: each row of the upper half exchanges bits with the row j below.
fn swap_block(a: &mut [u64], g: usize, j: usize, m: u64)
    requires { (length a.old ≡ 64) × (g + 2 * j ≤ 64) }
    ensures { Swapped j m g j a.old a.new }
{
    for i in 0..j {
        let h = g + i;
        let l = g + (j + i);
        let (x, y) = exchange(a[h], a[l], j, m);
        a[h] = x;
        a[l] = y;
    }
}

// The k blocks of 2 j rows.
fn stage(a: &mut [u64], k: usize, j: usize, m: u64)
    requires { (length a.old ≡ 64) × (k * (2 * j) ≡ 64) × T (masked k j m) }
    ensures { Crossed k j a.old a.new }
{
    for q in 0..k {
        swap_block(a, q * (2 * j), j, m);
    }
}

// 64 words, one a row, become the words of their columns.
pub fn transpose_words(a: &mut [u64])
    requires { length a.old ≡ 64 }
    ensures { Turned a.old a.new }
{
    stage(a, 1, 32, 0x0000_0000_ffff_ffff);
    stage(a, 2, 16, 0x0000_ffff_0000_ffff);
    stage(a, 4, 8, 0x00ff_00ff_00ff_00ff);
    stage(a, 8, 4, 0x0f0f_0f0f_0f0f_0f0f);
    stage(a, 16, 2, 0x3333_3333_3333_3333);
    stage(a, 32, 1, 0x5555_5555_5555_5555)
}
