// The proved entries, as the comparisons call them: of arrays that have room for every degree they take the cells of their own.
use array::report::Report;
use line::refusals::Refusal;
use second::arrays::Cells;
use second::blocks::{File, Sheet};
use second::codes::Code;
use second::codewords::Line;
use second::encoding::Message;
use second::lines::FillingWord;
use second::loads::Order;

pub(crate) fn bounded_distance(code: Code, word: &mut Line) -> Result<Option<u64>, Refusal> {
    line::entry::bounded_distance(code.degree(), &mut word[..code.n])
}

pub(crate) fn decode_line(
    code: Code,
    line: &mut Line,
    filling: FillingWord,
) -> Result<bool, Refusal> {
    let cells = &mut line[..code.n];
    line::entry::decode_line(code.degree(), cells, filling.low, filling.high)
}

pub(crate) fn messages(
    code: Code,
    incoming: &Line,
    channel: &Line,
    filling: FillingWord,
    messages: &mut Line,
) -> Result<u64, Refusal> {
    line::entry::line_messages(
        code.degree(),
        &incoming[..code.n],
        &channel[..code.n],
        filling.low,
        filling.high,
        &mut messages[..code.n],
    )
}

pub(crate) fn decode(
    code: Code,
    iterations: usize,
    received: &Cells,
    filling: &[u64],
    cells: &mut Cells,
) -> Result<Report, Refusal> {
    array::entry::decode(
        code.degree(),
        iterations as u64,
        &received[..code.area()],
        filling,
        &mut cells[..code.area()],
    )
}

pub(crate) fn encode(code: Code, message: &Message, cells: &mut Cells) -> Result<(), Refusal> {
    let lent = &message[..code.message_area()];
    array::encoding::encode(code.degree(), lent, &mut cells[..code.area()])
}

pub(crate) fn extract(code: Code, cells: &Cells, message: &mut Message) -> Result<(), Refusal> {
    let room = &mut message[..code.message_area()];
    array::extraction::extract(code.degree(), &cells[..code.area()], room)
}

// A look-up of a row tells the row or why there is none; two others tell one of these each.
pub(crate) fn look_up<'a>(code: Code, cells: &'a Cells, i: usize) -> Result<&'a [u8], Refusal> {
    array::rows::look_up(code.degree(), &cells[..code.area()], i)
}

pub(crate) fn row<'a>(code: Code, cells: &'a Cells, i: usize) -> &'a [u8] {
    array::rows::row(code.degree(), &cells[..code.area()], i)
}

pub(crate) fn row_refusal(code: Code, cells: &Cells, i: usize) -> u64 {
    array::rows::row_refusal(code.degree(), &cells[..code.area()], i)
}

pub(crate) fn write_blocks(number: u16, sheet: &Sheet, file: &mut File) -> Result<(), Refusal> {
    blocks::entry::write_blocks(number, sheet, file)
}

pub(crate) fn read_blocks(file: &File, sheet: &mut Sheet) -> Result<u16, Refusal> {
    blocks::entry::read_blocks(file, sheet)
}

pub(crate) fn load(
    code: Code,
    order: Order,
    message: &[u8],
    cells: &mut [u8],
) -> Result<(), Refusal> {
    load::entry::load(
        code.degree(),
        order.seed,
        order.wrong,
        order.unsure,
        message,
        cells,
    )
}
