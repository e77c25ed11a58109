#![tactic(auto)]
// The bench with a choice of engines: the first, the card's, the plain one, or all of them side by side.
ghost use Rattle.std.specs.Prelude.{◌≡◌, true, ◌-◌, length, replicate};
ghost use Rattle.skelmarix.specs.Rules.{default_slots, fresh_record};
ghost use Rattle.types.specs.declared.Kind.TheVariants.{Command};
ghost use Rattle.changes.specs.Kept.{with_record};
ghost use Rattle.bench.specs.Lines.{Untouched};
ghost use Rattle.chosen.specs.Choices.{understood_by, engine_row, Begun, Unclear, LineLeaves};

use others::CARD;
use regions::{Chosen, FIRST, PLAIN, Told, outcome};
use types::Kind;
use values::meaning;
use values::rows::{Row, Value};
use words::line::Line;
use words::table;

// What is kept before the first line: the first engine answers.
pub fn start(numbered: bool) -> Chosen {
    let mut b = bench::start();
    b.numbered = numbered;
    Chosen {
        bench: b,
        engine: FIRST,
        others: others::start(),
    }
}

// ---- the others
// A slot is put into the state of the card's engine.
fn card_slot(l: Line, line: &[u8], c: Chosen, text: &mut [u8], at: usize) -> Told
    ensures { Unclear c result }
{
    let none = [0u8; 0];
    let b = changes::with_record(c.bench, others::record_in(CARD, c.others, &none));
    let h = bench::slot_lines::slot_line(b, l, line, text, at);
    if !h.understood {
        return outcome(c, false, at);
    }
    let mut d = c;
    d.others = others::with_record(c.others, h.bench.record);
    outcome(d, true, h.end)
}

// A line by the engine that answers, one that puts no slot.
fn by_engine(
    l: Line,
    line: &[u8],
    c: Chosen,
    cells: &mut [u8],
    output: &mut [u8],
    buffer: &mut [u8],
    text: &mut [u8],
    at: usize,
) -> Told
    ensures { result.understood ≡ true }
{
    if c.engine <= PLAIN {
        let e = c.engine;
        let t = regions::other(e, l, line, c, cells, output, buffer, text, at);
        return outcome(t.chosen, true, t.end);
    }
    let t = regions::all(l, line, c, cells, output, buffer, text, at);
    outcome(t.chosen, true, t.end)
}

// ---- choosing
fn is_engine(row: usize) -> bool
    ensures { result ≡ engine_row row }
{
    (table::ENGINE_FIRST <= row) & (row <= table::ENGINE_BOTH)
}

fn engine_of(row: usize) -> usize
    ensures { result ≡ row - 69 }
{
    if row < table::ENGINE_FIRST {
        return 0;
    }
    row - table::ENGINE_FIRST
}

fn name_of(e: usize) -> &'static str {
    match e {
        FIRST => "first",
        CARD => "card",
        PLAIN => "plain",
        _ => "both",
    }
}

// `engine` and its name.
fn say_engine(e: usize, text: &mut [u8], at: usize) -> usize {
    let row = Row::new("engine", &[Value::Name(name_of(e))]);
    answers::record::alone(row, text, at)
}

// An engine answers from now on, and each has a fresh record for commands, of five slots.
fn begin(c: Chosen, e: usize) -> Chosen
    ensures { (result.bench ≡ with_record c.bench (fresh_record default_slots Command)) × (result.engine ≡ e) }
{
    Chosen {
        bench: changes::with_record(c.bench, skelmarix::fresh_record(Kind::Command)),
        engine: e,
        others: others::start(),
    }
}

fn choose(
    row: usize,
    c: Chosen,
    cells: &mut [u8],
    output: &mut [u8],
    text: &mut [u8],
    at: usize,
) -> Told
    ensures begun { Begun (row - 69) c result }
    ensures cells_after { cells.new ≡ replicate (length cells.old) 0 }
    ensures output_after { output.new ≡ replicate (length output.old) 0 }
{
    let e = engine_of(row);
    let d = begin(c, e);
    let end = say_engine(e, text, at);
    lines::fill(cells, 0);
    lines::fill(output, 0);
    outcome(d, true, end)
}

// ---- a line
// Whether a line is understood by the engine that answers.
fn is_clear(l: Line, engine: usize) -> bool
    ensures { result ≡ understood_by engine l.understood l.row }
{
    l.understood & meaning::is_suited(engine, l.row)
}

// Answers a line behind the text up to `at`. The line's octets are read to its own start.
pub fn answer(
    line: &mut [u8],
    c: Chosen,
    cells: &mut [u8],
    output: &mut [u8],
    buffer: &mut [u8],
    text: &mut [u8],
    at: usize,
) -> Told
    ensures line_leaves { LineLeaves line.old c cells.old output.old result cells.new output.new }
    ensures untouched { Untouched result.understood buffer.old buffer.new }
{
    if words::line::is_silent(line) {
        return outcome(c, true, at);
    }
    let l = bench::read(line);
    if !is_clear(l, c.engine) {
        return outcome(c, false, at);
    }
    if is_engine(l.row) {
        return choose(l.row, c, cells, output, text, at);
    }
    if c.engine == FIRST {
        return regions::first(l, line, c, cells, output, buffer, text, at);
    }
    if l.row == table::SLOT {
        return card_slot(l, line, c, text, at);
    }
    by_engine(l, line, c, cells, output, buffer, text, at)
}
