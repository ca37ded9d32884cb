// Bytes in words, eight at a time: joined to a word and put back, their lowest bits gathered and bits spread over them.
ghost use Rattle.std.specs.Prelude.{◌≡◌, ◌+◌, ◌<◌, ◌≤◌, ◌%◌, length, take, drop};
ghost use Rattle.std.proofs.lemmas.List.Edits.{sets};
ghost use Rattle.laws.specs.Digits.{digits};
ghost use Rattle.words.specs.Working.Bytes.{joined, gathered, bytes_of};

// A place in a slice is handed along with it: cut out at each call, four bytes would be no plainer.

// Four bytes as one number, the first the lowest.
pub fn four(bytes: &[u8], at: usize) -> u64
    requires { at + 4 ≤ length bytes.now }
    ensures { (result ≡ joined (take 4 (drop at bytes.now))) × (result < 4294967296) }
{
    let four = [bytes[at], bytes[at + 1], bytes[at + 2], bytes[at + 3]];
    u64::from(u32::from_le_bytes(four))
}

// The lowest bits of eight bytes.
pub fn gather(x: u64) -> u64
    ensures { result ≡ gathered 8 x }
{
    let a = x & 0x0101_0101_0101_0101;
    let b = a | (a >> 7);
    let c = b | (b >> 14);
    let d = c | (c >> 28);
    d & 255
}

// Eight bits as the lowest bits of eight bytes.
pub fn spread(x: u64) -> u64
    requires { x < 256 }
    ensures { (result ≡ joined (digits 8 x)) × (result ≤ 72340172838076673) }
{
    let a = (x | (x << 28)) & 0x0000_000f_0000_000f;
    let b = (a | (a << 14)) & 0x0003_0003_0003_0003;
    (b | (b << 7)) & 0x0101_0101_0101_0101
}

// The four low bytes of a word, the lowest first.
pub fn put_four(bytes: &mut [u8], at: usize, x: u64)
    requires { at + 4 ≤ length bytes.old }
    ensures { bytes.new ≡ sets bytes.old at (bytes_of 4 x) }
{
    bytes[at..at + 4].copy_from_slice(&x.to_le_bytes()[..4]);
}
