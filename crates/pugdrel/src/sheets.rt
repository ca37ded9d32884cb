// The call of the text form.
ghost use Rattle.pugdrel.specs.SheetCall.{SheetTold};

use crate::reports::tell;
use line::refusals::Refusal;
use text::sheet::text_into;

// Writes what the program `sheet` prints for the input to the front of `output`. Reports how many bytes that are. The text itself
// says whether the input is refused; the call is refused only for the length of the output or of the report.
pub fn pugdrel_sheet(input: &[u8], output: &mut [u8], report: &mut [u64]) -> u64
    ensures { SheetTold input.now output.old output.new report.old report.new result }
{
    if (output.len() == 16596) & (report.len() == 1) {
        let long = text_into(input, output);
        let numbers = [long as u64];
        tell(&numbers, report);
        0
    } else {
        let numbers = [0];
        tell(&numbers, report);
        u64::from(Refusal::BadLength)
    }
}
