#![tactic(auto)]
// What is kept from line to line, and the lines that change it: taking, a fresh record, filling, lending, numbering, beats, counters,
// outstanding commands.
mod notes;

ghost use Rattle.std.specs.Prelude.{◌≡◌, ◌<◌, ◌≤◌, length, get_or, replicate};
ghost use Rattle.skelmarix.specs.Rules.{cells_size, state, after, told_answer};
ghost use Rattle.values.specs.Fields.{kind_by};
ghost use Rattle.lines.specs.Lent.{lent_of};
ghost use Rattle.changes.specs.Kept as rule;
ghost use Rattle.changes.specs.Kept.{at_start, held, called, held_taken, row_changes, with_record, fresh_made};

use types::Record;
use values::{meaning, rows};
use words::table;

// What is kept beside the buffers: the record, the tables of counters and of outstanding commands, how many octets of cells, output, buffer and log
// are lent (`RIGHT` means the right number), and whether answers are numbered.
#[derive(Clone, Copy)]
pub struct Bench {
    pub record: Record,
    pub counters: types::Counters,
    pub outstanding: types::Outstanding,
    pub lent: [usize; 4],
    pub numbered: bool,
}

// What is kept afterwards, and the answer.
#[derive(Clone, Copy)]
pub struct Made {
    pub bench: Bench,
    pub row: rows::Row,
}

// What is kept before the first line: a fresh record for commands, no counters, and no commands.
pub fn start() -> Bench
    ensures { result ≡ at_start }
{
    Bench {
        record: skelmarix::fresh_record(types::Kind::Command),
        counters: skelmarix::no_counters(),
        outstanding: skelmarix::no_commands(),
        lent: [lines::RIGHT; 4],
        numbered: false,
    }
}

// The bench with another record.
pub fn with_record(b: Bench, r: Record) -> Bench
    ensures { result ≡ with_record b r }
{
    let mut c = b;
    c.record = r;
    c
}

// ---- taking
// Takes a message or a page.
fn call(
    way: usize,
    at: usize,
    r: Record,
    octets: &[u8],
    cells: &mut [u8],
    output: &mut [u8],
) -> types::Taken
    ensures { after (told_answer result.answer) result.record cells.new output.new ≡ rule.call way at octets.now (state r cells.old output.old) }
{
    let own = skelmarix::own_octets(octets, at);
    if way == table::MESSAGE {
        return skelmarix::take_message(r, values::fields::sender_of(octets), own, cells, output);
    }
    skelmarix::take_page(r, own, cells, output)
}

// How many octets of so many are lent of the cells, 0, or the output, 1.
fn lent_of(b: Bench, i: usize, right: usize, all: usize) -> usize
    requires { i < 3 }
    ensures { (result ≡ lent_of (get_or b.lent i 0) right all) × (result ≤ all) }
{
    let sizes = b.lent;
    lines::lent(sizes[i], right, all)
}

// The right number of octets of the cells, by the record's number of slots.
fn right_cells(r: Record) -> usize
    ensures { result ≡ cells_size r.count }
{
    r.count as usize * types::SLOT_OCTETS
}

fn take(way: usize, at: usize, octets: &[u8], b: Bench, cells: &mut [u8], output: &mut [u8]) -> Made
    ensures { held result.bench cells.new output.new ≡ held_taken (held b cells.old output.old) (rule.call way at octets.now (called (held b cells.old output.old))) }
{
    let n = lent_of(b, 0, right_cells(b.record), cells.len());
    let m = lent_of(b, 1, types::PACKET_OCTETS, output.len());
    let t = call(
        way,
        at,
        b.record,
        octets,
        &mut cells[0..n],
        &mut output[0..m],
    );
    let answer = t.answer;
    let after = t.record;
    Made {
        bench: with_record(b, after),
        row: rows::answer(answer),
    }
}

// ---- filling
// Every octet of cells and output.
fn fill_both(x: u8, cells: &mut [u8], output: &mut [u8])
    ensures cells_after { cells.new ≡ replicate (length cells.old) x }
    ensures output_after { output.new ≡ replicate (length output.old) x }
{
    lines::fill(cells, x);
    lines::fill(output, x);
}

// ---- a fresh record
// A fresh record, with cells and output all 00; what the library refuses to make changes nothing.
fn fresh(response: bool, n: u8, b: Bench, cells: &mut [u8], output: &mut [u8]) -> Made
    ensures { held result.bench cells.new output.new ≡ fresh_made (kind_by response) n (held b cells.old output.old) }
{
    let m = skelmarix::fresh_record_with(values::fields::kind_of(response), n);
    let answer = m.answer;
    let after = m.record;
    match answer {
        Ok(()) => {
            fill_both(0, cells, output);
            Made {
                bench: with_record(b, after),
                row: rows::made(answer),
            }
        }
        Err(why) => Made {
            bench: b,
            row: rows::made(Err(why)),
        },
    }
}

// ---- by the row
// Changes what is kept as the line's row says.
pub fn change(
    row: usize,
    count: usize,
    n: usize,
    octets: &[u8],
    b: Bench,
    cells: &mut [u8],
    output: &mut [u8],
) -> Made
    ensures { held result.bench cells.new output.new ≡ row_changes row count n octets.now (held b cells.old output.old) }
{
    let way = meaning::way_of(row, octets);
    if way < 3 {
        return take(way, meaning::own_at(row), octets, b, cells, output);
    }
    if row < table::FILL {
        let slots = meaning::slots_asked(count, n);
        return fresh(row == table::FRESH_RESPONSE, slots, b, cells, output);
    }
    if row == table::FILL {
        fill_both(values::fields::octet(octets, 0), cells, output);
        return notes::named(b, row, n);
    }
    notes::noted(row, count, n, octets, b)
}
