// The proved entries compared with the second implementation of documents 01 and 02, which is the crate `second`, on many lines, arrays and
// sheets made by chance. It prints totals: one disagreement changes them, and so does any change of a result.
#![tactic(auto)]

mod given; // the entries
mod lines; // bounded distance, line decoding, messages
mod arrays; // decoding, encoding, taking the message out, rows
mod files; // sheets in blocks
mod loads; // draws, loads, the acceptance run

use arrays::{
    Decodings, Received, almost_closed, damaged, test_each, test_encode, test_extract, test_rows,
};
use damage::chance::Chance;
use files::test_files;
use lines::{Lines, Messages, Words, each_check_sum, each_line};
use loads::{Acceptance, Loads, test_seeds};
use second::arrays::Cells;
use second::codes::Code;
use second::codewords::Decoder;
use second::tallies::{Clauses, Tally, say};
use std::io;
use std::io::Write;

// How often each clause was met.
fn say_clauses<W: Write>(out: &mut W, met: &Clauses) -> io::Result<()> {
    say(
        out,
        b"clauses: # equal, # crowded, # both, # neither, # agreeing, # unchanged, # open, # afresh, # channel\n",
        &met.counts(),
    )?;
    Ok(())
}

fn say_tally<W: Write>(out: &mut W, line: &[u8], tally: &Tally) -> io::Result<()> {
    say(
        out,
        line,
        &[tally.tried, tally.agree, tally.differ, tally.sum],
    )?;
    Ok(())
}

fn run_words<W: Write>(out: &mut W, decoder: &Decoder, many: usize) -> io::Result<()> {
    let mut words = Words::none();
    each_line(decoder.code, many, |line| words.test(decoder, line.word));
    say(
        out,
        b"bounded distance: # words, # agree, # differ, sum #; # found, # with no cell changed, # with one, # with two\n",
        &words.counts(),
    )?;
    let mut all = Words::none();
    each_check_sum(decoder.code, |word| all.test(decoder, word));
    say(
        out,
        b"all check sums: # words, # agree, # differ, sum #; # found, # with no cell changed, # with one, # with two\n",
        &all.counts(),
    )?;
    Ok(())
}

fn run_lines<W: Write>(out: &mut W, decoder: &Decoder, many: usize) -> io::Result<()> {
    let mut lines = Lines::none();
    each_line(decoder.code, many, |line| {
        lines.test(decoder, line.incoming, line.filling)
    });
    say(
        out,
        b"line decoding: # lines, # agree, # differ, sum #; # found\n",
        &lines.counts(),
    )?;
    let mut messages = Messages::none();
    each_line(decoder.code, many, |line| {
        messages.test(decoder, line.incoming, line.channel, line.filling)
    });
    say_tally(
        out,
        b"messages: # lines, # agree, # differ, sum #\n",
        &messages.tally,
    )?;
    say_clauses(out, &messages.met)
}

// Arrays as they are made by chance.
fn run_decoding<W: Write, F: Fn(usize, &mut Chance) -> Received>(
    out: &mut W,
    decoder: &Decoder,
    many: usize,
    line: &[u8],
    make: F,
) -> io::Result<()>
    requires { F.IsAlwaysCallable make }
{
    let mut decodings = Decodings::none();
    decodings.test_all(decoder, many, make);
    say(out, line, &decodings.counts())?;
    say(
        out,
        b"left almost closed: # with good columns and rows off, # with good rows and columns off, # with good lines and unsure cells\n",
        &decodings.almost_closed(),
    )?;
    say_clauses(out, &decodings.met)
}

fn run_decodings<W: Write>(out: &mut W, decoder: &Decoder, many: usize) -> io::Result<()> {
    let code = decoder.code;
    run_decoding(
        out,
        decoder,
        many,
        b"decode: # arrays, # agree, # differ, sum #; # closed, # restored; # within the row condition, # of them restored and closed\n",
        |trial, chance| damaged(code, trial, chance),
    )?;
    run_decoding(
        out,
        decoder,
        many,
        b"decode, almost closed: # arrays, # agree, # differ, sum #; # closed, # left as received\n",
        |trial, chance| almost_closed(code, trial, chance),
    )
}

// Another entry on arrays, which is tried on each as it was sent and as it is received.
fn run_other<W: Write, F: Fn(&Cells, &Cells, &mut Tally)>(
    out: &mut W,
    code: Code,
    many: usize,
    line: &[u8],
    test: F,
) -> io::Result<()>
    requires { F.IsAlwaysCallable test }
{
    let mut tally = Tally::none();
    test_each(code, many, test, &mut tally);
    say_tally(out, line, &tally)
}

fn run_others<W: Write>(out: &mut W, code: Code, many: usize) -> io::Result<()> {
    run_other(
        out,
        code,
        many,
        b"encode: # arrays, # agree, # differ, sum #\n",
        |sent, _, tally| test_encode(code, sent, tally),
    )?;
    run_other(
        out,
        code,
        many,
        b"extract: # arrays, # agree, # differ, sum #\n",
        |_, received, tally| test_extract(code, received, tally),
    )?;
    run_other(
        out,
        code,
        many,
        b"row: # rows, # agree, # differ, sum #\n",
        |_, received, tally| test_rows(code, received, tally),
    )
}

fn run_loads<W: Write>(out: &mut W, code: Code, many: u64) -> io::Result<()> {
    let mut loads = Loads::none();
    loads.test_all(code, many);
    say(
        out,
        b"load: # sheets, # agree, # differ, sum #; # cells inverted, # unsure\n",
        &loads.counts(),
    )?;
    Ok(())
}

fn run_degree<W: Write>(out: &mut W, degree: u64, lines: usize, arrays: usize) -> io::Result<()> {
    let code = Code::of_degree(degree);
    let decoder = Decoder::of(code);
    say(out, b"degree #\n", &[degree])?;
    run_words(out, &decoder, lines)?;
    run_lines(out, &decoder, lines)?;
    run_decodings(out, &decoder, arrays)?;
    run_others(out, code, arrays)?;
    run_loads(out, code, arrays as u64)
}

fn run_files<W: Write>(out: &mut W, many: usize) -> io::Result<()> {
    let mut writing = Tally::none();
    let mut reading = Tally::none();
    test_files(many, &mut writing, &mut reading);
    say_tally(
        out,
        b"write_blocks: # sheets, # agree, # differ, sum #\n",
        &writing,
    )?;
    say_tally(
        out,
        b"read_blocks: # files, # agree, # differ, sum #\n",
        &reading,
    )
}

fn run_draws<W: Write>(out: &mut W, seeds: u64, many: u32) -> io::Result<()> {
    let mut tally = Tally::none();
    test_seeds(seeds, many, &mut tally);
    say_tally(out, b"draws: # draws, # agree, # differ, sum #\n", &tally)
}

fn run_acceptance<W: Write>(out: &mut W, degree: u64) -> io::Result<()> {
    say(
        out,
        b"acceptance run of degree #: # sheets, cells #, count #, unsure #, closed #\n",
        &Acceptance::of(Code::of_degree(degree)).counts(degree),
    )?;
    Ok(())
}

fn main(rt: HostRuntime) -> io::Result<()> {
    let mut out = rt.stdout();
    run_degree(&mut out, 4, 20000, 1530)?;
    run_degree(&mut out, 6, 3000, 255)?;
    run_degree(&mut out, 7, 1000, 51)?;
    run_files(&mut out, 1000)?;
    run_draws(&mut out, 300, 300)?;
    run_acceptance(&mut out, 4)?;
    run_acceptance(&mut out, 6)?;
    run_acceptance(&mut out, 7)
}
