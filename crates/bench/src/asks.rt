// What is printed of a line, once what is kept is changed.
use crate::shows;
use answers::Buffers;
use changes::Made;
use words::line::Line;

// Prints the answer of a line, with what was made of it.
pub(crate) fn say<'a>(
    l: Line,
    octets: &[u8],
    made: Made,
    cells: &'a [u8],
    output: &'a [u8],
    buffer: &mut [u8],
    text: &mut [u8],
    at: usize,
) -> usize {
    if shows::is_shown(l.row) {
        return shows::kept(l.row, made.bench, text, at);
    }
    if lines::is_packet(l.row) {
        return lines::say_packet(l.row, octets, text, at);
    }
    let lent = made.bench.lent;
    let row = values::part::part_or(l, made.row);
    let row = lines::answer_row(l, octets, row, lent[2], buffer);
    let buffers = Buffers {
        first: cells,
        second: output,
        third: buffer,
    };
    answers::print(row, buffers, text, at)
}
