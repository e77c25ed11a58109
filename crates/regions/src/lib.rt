#![tactic(auto)]
// The engines of the bench, each on its own region of cells and of output: the first, the card's, the plain one, or all of them side by side. Of the plain
// one the cells are the entries of its log.
ghost use Rattle.std.specs.Prelude.{◌≡◌, ◌≤◌};
ghost use Rattle.words.specs.Line.{gathered};
ghost use Rattle.bench.specs.Lines.{Untouched};
ghost use Rattle.regions.specs.Regions.{region_end, with_bench, FirstMade};

use answers::Buffers;
use bench::Heard;
use changes::Bench;
use others::{CARD, Others};
use words::line::Line;
use words::table;

// The numbers of the engines, beside that of the card's.
pub const FIRST: usize = 0;

pub const PLAIN: usize = 2;

// The octets of an engine's cells, and of its output.
const REGION: usize = 16384;

// What is kept beside the buffers: that of the first engine and of every line that needs no engine, which engine answers, and what is kept of the others.
#[derive(Clone, Copy)]
pub struct Chosen {
    pub bench: Bench,
    pub engine: usize,
    pub others: Others,
}

// The result of a line: what is kept afterwards, and where the text ends with its answer.
#[derive(Clone, Copy)]
pub struct Told {
    pub chosen: Chosen,
    pub understood: bool,
    pub end: usize,
}

// A line's result.
pub fn outcome(c: Chosen, understood: bool, end: usize) -> Told
    ensures { (result.chosen ≡ c) × (result.understood ≡ understood) }
{
    Told {
        chosen: c,
        understood,
        end,
    }
}

// ---- regions
// Where the region of an engine begins and ends, of so many octets in all.
fn region_from(e: usize, all: usize) -> usize
    ensures { result ≤ all }
{
    let from = e % 3 * REGION;
    if from < all { from } else { all }
}

fn region_to(from: usize, all: usize) -> usize
    requires { from ≤ all }
    ensures { (from ≤ result) × (result ≤ all) }
{
    if REGION < all - from {
        from + REGION
    } else {
        all
    }
}

// Where the first one ends.
fn first_end(all: usize) -> usize
    ensures { (result ≡ region_end all) × (result ≤ all) }
{
    if REGION < all { REGION } else { all }
}

// ---- the first engine
fn with_heard(c: Chosen, h: Heard) -> Told
    ensures { (result.chosen ≡ with_bench c h.bench) × (result.understood ≡ h.understood) }
{
    let after = h.bench;
    let mut d = c;
    d.bench = after;
    outcome(d, h.understood, h.end)
}

// The first engine makes a line's call, on its own region.
pub fn first(
    l: Line,
    line: &[u8],
    c: Chosen,
    cells: &mut [u8],
    output: &mut [u8],
    buffer: &mut [u8],
    text: &mut [u8],
    at: usize,
) -> Told
    ensures first_made { FirstMade (gathered l line.now) c cells.old output.old result cells.new output.new }
    ensures untouched { Untouched result.understood buffer.old buffer.new }
{
    let n = first_end(cells.len());
    let m = first_end(output.len());
    let h = bench::make(
        l,
        line,
        c.bench,
        &mut cells[0..n],
        &mut output[0..m],
        buffer,
        text,
        at,
    );
    with_heard(c, h)
}

// ---- the others
// What the bench made of a line with the record of an engine: this goes back to the engine, and the first one keeps its own.
fn put_back(e: usize, c: Chosen, h: Heard) -> Chosen {
    let mut d = c;
    d.bench = changes::with_record(h.bench, c.bench.record);
    if e == CARD {
        d.others = others::with_record(c.others, h.bench.record);
    }
    d
}

// One of them makes a line's call by itself, and its answer is printed.
fn call(
    e: usize,
    l: Line,
    octets: &[u8],
    c: Chosen,
    cells: &mut [u8],
    output: &mut [u8],
    text: &mut [u8],
    at: usize,
) -> Told {
    let values = l.values;
    let n = bench::first(values);
    let lent = c.bench.lent;
    let a = others::change(e, l.row, l.count, n, octets, lent, c.others, cells, output);
    let sent = skelmarix::first_octets(output, types::PACKET_OCTETS);
    let end = answers::print(a.row, Buffers::all(sent), text, at);
    let after = a.others;
    let mut d = c;
    d.others = after;
    outcome(d, true, end)
}

// A line on the region of one of them.
fn within(
    e: usize,
    l: Line,
    line: &[u8],
    c: Chosen,
    cells: &mut [u8],
    output: &mut [u8],
    buffer: &mut [u8],
    text: &mut [u8],
    at: usize,
) -> Told {
    if others::is_own(l.row) {
        let octets = skelmarix::first_octets(line, l.end);
        return call(e, l, octets, c, cells, output, text, at);
    }
    let b = changes::with_record(c.bench, others::record_in(e, c.others, cells));
    let h = bench::make(l, line, b, cells, output, buffer, text, at);
    outcome(put_back(e, c, h), true, h.end)
}

// A line by one of them.
pub fn other(
    e: usize,
    l: Line,
    line: &[u8],
    c: Chosen,
    cells: &mut [u8],
    output: &mut [u8],
    buffer: &mut [u8],
    text: &mut [u8],
    at: usize,
) -> Told {
    let a = region_from(e, cells.len());
    let b = region_to(a, cells.len());
    let f = region_from(e, output.len());
    let g = region_to(f, output.len());
    within(
        e,
        l,
        line,
        c,
        &mut cells[a..b],
        &mut output[f..g],
        buffer,
        text,
        at,
    )
}

// ---- all of them
// Whether a line is made on each: it takes, makes a fresh record, fills, beats, or shows the record.
fn is_for_each(row: usize) -> bool {
    (row <= table::FILL) | (row == table::RECORD) | (row == table::BEAT) | (row == table::CAPTURED)
}

// Whether what stands from `middle` to `end` is what stands from `at` to `middle`.
fn is_said_again(text: &[u8], at: usize, middle: usize, end: usize) -> bool {
    let once = skelmarix::own_octets(skelmarix::first_octets(text, middle), at);
    let again = skelmarix::own_octets(skelmarix::first_octets(text, end), middle);
    skelmarix::same_octets(once, again)
}

// Behind the answer of the first: nothing, or that another says something else.
fn say_whether(same: bool, text: &mut [u8], at: usize) -> usize {
    if same {
        return at;
    }
    answers::say(b" differs", text, at)
}

// The first engine answers; each other one does behind it, is compared with it, and what it said is dropped.
pub fn all(
    l: Line,
    line: &[u8],
    c: Chosen,
    cells: &mut [u8],
    output: &mut [u8],
    buffer: &mut [u8],
    text: &mut [u8],
    at: usize,
) -> Told {
    let x = first(l, line, c, cells, output, buffer, text, at);
    if !is_for_each(l.row) {
        return outcome(x.chosen, true, x.end);
    }
    let y = other(CARD, l, line, x.chosen, cells, output, buffer, text, x.end);
    let so = is_said_again(text, at, x.end, y.end);
    let z = other(PLAIN, l, line, y.chosen, cells, output, buffer, text, x.end);
    let same = so & is_said_again(text, at, x.end, z.end);
    outcome(z.chosen, true, say_whether(same, text, x.end))
}
