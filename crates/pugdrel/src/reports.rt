// The report: a lent slice that a call writes its numbers to.
ghost use Rattle.std.specs.Prelude.{◌≡◌, cond};
ghost use Rattle.pugdrel.specs.Reports.{told};

// Writes the numbers to a report of their length. A report of another length stays as it is.
pub fn tell(numbers: &[u64], report: &mut [u64])
    ensures { report.new ≡ told numbers.now report.old }
{
    if report.len() == numbers.len() {
        report.copy_from_slice(numbers);
    }
}

// How much of a slice is handed on: all of it, or nothing where the report does not fit. The entry below refuses an empty slice
// where it tests the lengths, and changes nothing: that is the test of the report's length.
pub fn lent(fit: bool, long: usize) -> usize
    ensures { result ≡ cond fit long 0 }
{
    if fit { long } else { 0 }
}
