// Two words beside a slice of bytes, eight bytes at a time: the lowest bit of byte i is bit i of the first word, the bit above it
// bit i of the second.
ghost use Rattle.std.specs.Prelude.{◌≡◌, ◌⊎◌, ℕ, ◌<◌, ◌≤◌, ◌%◌, length, get_or};
ghost use Rattle.words.specs.Working.Pairs.{bits_of, pairs_of};
ghost use Rattle.words.specs.Working.Word.{value, width};

use crate::bytes::{gather, spread};
use crate::word::{Word, high_of, low_of, of_numbers};

// ---- at most 64 bytes, whose bits fit two numbers

// The two lowest bits of each byte.
fn gather_part(bytes: &[u8]) -> (u64, u64)
    requires { (length bytes.now ≤ 64) × (length bytes.now % 8 ≡ 0) × ((i : ℕ) → get_or bytes.now i 0 < 256) }
    ensures { (result.0 ≡ bits_of 0 bytes.now) × (result.1 ≡ bits_of 1 bytes.now) }
{
    let mut first: u64 = 0;
    let mut second: u64 = 0;
    let (eights, _) = bytes.as_chunks::<8>();
    for (i, eight) in eights.iter().enumerate() {
        let x = u64::from_le_bytes(*eight);
        first |= gather(x) << (8 * i);
        second |= gather(x >> 1) << (8 * i);
    }
    (first, second)
}

// And back: all bytes are written.
fn spread_part(first: u64, second: u64, bytes: &mut [u8])
    requires { length bytes.old % 8 ≡ 0 }
    ensures { bytes.new ≡ pairs_of (length bytes.old) first second }
{
    let mut a = first;
    let mut b = second;
    for i in 0..bytes.len() / 8 {
        let x = spread(a % 256) + 2 * spread(b % 256);
        bytes[8 * i..8 * i + 8].copy_from_slice(&x.to_le_bytes());
        a /= 256;
        b /= 256;
    }
}

// ---- the bytes of two words

// Where a slice is cut: the first 64 bytes go with the low numbers.
fn cut_of(long: usize) -> usize
    ensures { (result ≤ long) × (result ≤ 64) × ((result ≡ 64) ⊎ (result ≡ long)) }
{
    if long < 64 { long } else { 64 }
}

// The two lowest bits of each byte.
pub fn gather_pair(bytes: &[u8]) -> (Word, Word)
    requires { (length bytes.now ≤ width) × (length bytes.now % 8 ≡ 0) × ((i : ℕ) → get_or bytes.now i 0 < 256) }
    ensures { (value result.0 ≡ bits_of 0 bytes.now) × (value result.1 ≡ bits_of 1 bytes.now) }
{
    let cut = cut_of(bytes.len());
    let (low_first, low_second) = gather_part(&bytes[..cut]);
    let (high_first, high_second) = gather_part(&bytes[cut..]);
    (
        of_numbers(low_first, high_first),
        of_numbers(low_second, high_second),
    )
}

// And back: all bytes are written.
pub fn spread_pair(first: Word, second: Word, bytes: &mut [u8])
    requires { length bytes.old % 8 ≡ 0 }
    ensures { bytes.new ≡ pairs_of (length bytes.old) (value first) (value second) }
{
    let cut = cut_of(bytes.len());
    spread_part(low_of(first), low_of(second), &mut bytes[..cut]);
    spread_part(high_of(first), high_of(second), &mut bytes[cut..]);
}
