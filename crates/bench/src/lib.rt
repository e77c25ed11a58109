#![tactic(auto)]
// The bench of one engine: a line of text is a call of the library, and its answer is a line of text again. From line to line a record, the cells, the
// output and the buffer are kept, the tables of counters and of outstanding commands, and how much of each buffer is lent.
mod asks;
mod shows;
pub mod slot_lines;

ghost use Rattle.std.specs.Prelude.{◌≡◌, true, false, get_or};
ghost use Rattle.words.specs.Line.{gathered};
ghost use Rattle.bench.specs.Lines.{LineMade, ReadSo, Untouched};

use changes::Bench;
pub use changes::start;
use words::line::{Line, VALUES};
use words::table;

// The result of a line: what is kept afterwards, and where the text ends with its answer.
#[derive(Clone, Copy)]
pub struct Heard {
    pub bench: Bench,
    pub understood: bool,
    pub end: usize,
}

// A line that is understood, and one that is not.
pub(crate) fn answered(b: Bench, end: usize) -> Heard
    ensures { (result.bench ≡ b) × (result.understood ≡ true) }
{
    Heard {
        bench: b,
        understood: true,
        end,
    }
}

pub(crate) fn unanswered(b: Bench, at: usize) -> Heard
    ensures { (result.bench ≡ b) × (result.understood ≡ false) }
{
    Heard {
        bench: b,
        understood: false,
        end: at,
    }
}

// The first number of a line.
pub fn first(values: [u64; VALUES]) -> usize
    ensures { result ≡ get_or values 0 0 }
{
    values[0] as usize
}

// Reads a line; it is understood only if its words can be meant. The line's octets are read to its own start.
pub fn read(line: &mut [u8]) -> Line
    ensures { ReadSo result line.old line.new }
{
    let mut l = words::line::read(line);
    let octets = skelmarix::first_octets(line, l.end);
    let values = l.values;
    l.understood = l.understood & values::meaning::is_meant(l.row, l.count, first(values), octets);
    l
}

// Makes the call that a line asks for which was read and understood, and prints its answer behind the text up to `at`.
pub fn make(
    l: Line,
    line: &[u8],
    b: Bench,
    cells: &mut [u8],
    output: &mut [u8],
    buffer: &mut [u8],
    text: &mut [u8],
    at: usize,
) -> Heard
    ensures line_made { LineMade (gathered l line.now) b cells.old output.old result cells.new output.new }
    ensures untouched { Untouched result.understood buffer.old buffer.new }
{
    if l.row == table::SLOT {
        return slot_lines::slot_line(b, l, line, text, at);
    }
    let octets = skelmarix::first_octets(line, l.end);
    let values = l.values;
    let made = changes::change(l.row, l.count, first(values), octets, b, cells, output);
    let end = asks::say(l, octets, made, cells, output, buffer, text, at);
    answered(made.bench, end)
}
