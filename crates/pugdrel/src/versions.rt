// The version of the library, for a caller to compare with that of its header.
ghost use Rattle.std.specs.Prelude.{◌≡◌};
ghost use Rattle.pugdrel.specs.Version.{version};

// A million times the first number, a thousand times the second, and the third. The first grows where a call changes, the second
// where calls are added, the third where neither does; the numbers behind it start again at 0.
pub fn pugdrel_version() -> u64
    ensures { result ≡ version }
{
    3002000
}
