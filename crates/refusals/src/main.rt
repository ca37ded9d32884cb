// Calls that are to be turned down, and some that are not: each test of each entry failing alone and together with later ones, which gives
// the lower number. A refused call leaves every lent cell as it was. It prints totals: one disagreement changes them.
#![tactic(auto)]

mod calls; // the entries on lines and arrays
mod rooms; // files and loads
mod texts; // what `sheet` reads

use calls::{Entry, HIGHER, LOWER, Lot, Refusals};
use second::codes::Code;
use second::codewords::Decoder;
use second::tallies::say;
use std::io;
use std::io::Write;

// What was tried, and how many are to be taken and to be refused with each of the first numbers.
fn say_first_totals<W: Write>(out: &mut W, beginning: &[u8], seen: &Refusals) -> io::Result<()> {
    let tally = seen.tally;
    let [taken, one, two, three, four, _, _, _, _, _] = seen.told;
    say(out, beginning, &[tally.tried])?;
    say(
        out,
        b", # agree, # differ, sum #; # taken, # refused as 1, # as 2, # as 3, # as 4",
        &[
            tally.agree,
            tally.differ,
            tally.sum,
            taken,
            one,
            two,
            three,
            four,
        ],
    )?;
    Ok(())
}

// A line of these.
fn say_totals<W: Write>(out: &mut W, beginning: &[u8], seen: &Refusals) -> io::Result<()> {
    say_first_totals(out, beginning, seen)?;
    say(out, b"\n", &[])?;
    Ok(())
}

// With the refusal numbers of files, and with those of loads.
fn say_file_totals<W: Write>(out: &mut W, beginning: &[u8], seen: &Refusals) -> io::Result<()> {
    let [_, _, _, _, _, five, six, seven, _, _] = seen.told;
    say_first_totals(out, beginning, seen)?;
    say(out, b", # as 5, # as 6, # as 7\n", &[five, six, seven])?;
    Ok(())
}

fn say_load_totals<W: Write>(out: &mut W, beginning: &[u8], seen: &Refusals) -> io::Result<()> {
    let [_, _, _, _, _, _, _, _, eight, nine] = seen.told;
    say_first_totals(out, beginning, seen)?;
    say(out, b", # as 8, # as 9\n", &[eight, nine])?;
    Ok(())
}

fn run_entry<W: Write>(
    out: &mut W,
    entry: Entry,
    lot: &Lot,
    many: usize,
    beginning: &[u8],
) -> io::Result<()> {
    let mut seen = Refusals::none();
    seen.test_all(entry, lot, many);
    say_totals(out, beginning, &seen)
}

// All entries.
fn run_lot<W: Write>(out: &mut W, lot: &Lot) -> io::Result<()> {
    run_entry(out, Entry::Decode, lot, 1296, b"calls of decode: # calls")?;
    run_entry(out, Entry::Encode, lot, 108, b"calls of encode: # calls")?;
    run_entry(out, Entry::Extract, lot, 108, b"calls of extract: # calls")?;
    run_entry(out, Entry::Row, lot, 144, b"calls of row: # calls")?;
    run_entry(
        out,
        Entry::BoundedDistance,
        lot,
        36,
        b"calls of bounded_distance: # calls",
    )?;
    run_entry(
        out,
        Entry::DecodeLine,
        lot,
        36,
        b"calls of decode_line: # calls",
    )?;
    run_entry(
        out,
        Entry::LineMessages,
        lot,
        972,
        b"calls of line_messages: # calls",
    )
}

fn run_halves<W: Write>(out: &mut W) -> io::Result<()> {
    let mut seen = Refusals::none();
    seen.test_halves();
    say_totals(
        out,
        b"calls of decode with half the filling numbers: # calls",
        &seen,
    )
}

fn run_texts<W: Write>(out: &mut W, degree: u64, many: usize) -> io::Result<()> {
    let mut seen = Refusals::none();
    seen.test_texts(&Decoder::of(Code::of_degree(degree)), many);
    say_totals(out, b"sheet: # texts", &seen)
}

fn run_first_lines<W: Write>(out: &mut W) -> io::Result<()> {
    let mut seen = Refusals::none();
    for degree in [4, 6, 7] {
        seen.test_first_lines(&Decoder::of(Code::of_degree(degree)));
    }
    say_totals(out, b"first lines of sheet: # texts", &seen)
}

fn run_files<W: Write>(out: &mut W) -> io::Result<()> {
    let mut written = Refusals::none();
    written.test_writes(48);
    say_file_totals(out, b"calls of write_blocks: # calls", &written)?;
    let mut read = Refusals::none();
    read.test_reads(5120, 1);
    say_file_totals(out, b"calls of read_blocks: # calls", &read)?;
    // the two lowest digits, of which each has four values, are 0
    let mut fitting = Refusals::none();
    fitting.test_reads(5120, 16);
    say_file_totals(
        out,
        b"calls of read_blocks with the right lengths: # calls",
        &fitting,
    )?;
    let mut zero_sums = Refusals::none();
    zero_sums.test_zero_sum(249, 510);
    zero_sums.test_zero_sum(253, 511);
    say_file_totals(
        out,
        b"read_blocks with a sum of 0, and with 255 for it: # files",
        &zero_sums,
    )
}

fn run_loads<W: Write>(out: &mut W, many: usize) -> io::Result<()> {
    let mut seen = Refusals::none();
    seen.test_loads(many);
    say_load_totals(out, b"calls of load: # calls", &seen)
}

fn main(rt: HostRuntime) -> io::Result<()> {
    let mut out = rt.stdout();
    run_lot(&mut out, &LOWER)?;
    run_texts(&mut out, 4, 1530)?;
    run_texts(&mut out, 6, 255)?;
    run_lot(&mut out, &HIGHER)?;
    run_halves(&mut out)?;
    run_texts(&mut out, 7, 51)?;
    run_first_lines(&mut out)?;
    run_files(&mut out)?;
    run_loads(&mut out, 3456)
}
