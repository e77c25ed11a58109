// Lines that leave cells and output as they are: lending, numbering, the number of slots, the beat, and the tables of
// counters and of outstanding commands.
ghost use Rattle.std.specs.Prelude.{◌≡◌, ◌<◌, ◌%◌, set};
ghost use Rattle.skelmarix.specs.Rules.{beat};
ghost use Rattle.values.specs.Tables.{counters_by, commands_after};
ghost use Rattle.changes.specs.Kept as rule;
ghost use Rattle.changes.specs.Kept.{all_right, row_noted, lent_noted, now_numbered, with_record, with_count, with_lent, with_counters, with_outstanding};

use crate::{Bench, Made, with_record};
use values::rows;
use values::rows::{Row, Value};
use words::table;

fn lend(b: Bench, i: usize, n: usize) -> Bench
    requires { i < 4 }
    ensures { result ≡ with_lent b (set b.lent i n) }
{
    let mut c = b;
    c.lent[i] = n;
    c
}

fn lend_right(b: Bench) -> Bench
    ensures { result ≡ with_lent b all_right }
{
    let mut c = b;
    c.lent = [lines::RIGHT; 4];
    c
}

fn number(b: Bench) -> Bench
    ensures { result ≡ now_numbered b }
{
    let mut c = b;
    c.numbered = true;
    c
}

// The bench with another number of slots in its record, whatever they hold.
fn with_count(b: Bench, n: usize) -> Bench
    ensures { result ≡ with_record b (with_count b.«record» (n % 256)) }
{
    let mut r = b.record;
    r.count = (n % 256) as u8;
    with_record(b, r)
}

fn note_row(row: usize, n: usize, b: Bench) -> Bench
    ensures { result ≡ row_noted row n b }
{
    if row == table::LEND_RIGHT {
        return lend_right(b);
    }
    if row == table::NUMBER {
        return number(b);
    }
    if row == table::SLOTS {
        return with_count(b, n);
    }
    b
}

fn note(row: usize, n: usize, b: Bench) -> Bench
    ensures { result ≡ lent_noted row n b }
{
    if (table::LEND_CELLS - 1 < row) & (row < table::LEND_RIGHT) {
        return lend(b, row - table::LEND_CELLS, n);
    }
    if row == table::LEND_LOG {
        return lend(b, 3, n);
    }
    note_row(row, n, b)
}

// What a line answers that took nothing.
fn answer_of(row: usize, n: usize) -> Row {
    match row {
        table::FILL => Row::new("filled", &[]),
        table::SLOTS => Row::new("slots", &[Value::Number(n as u64)]),
        table::NUMBER => Row::new("numbered", &[]),
        _ => Row::new("lent", &[]),
    }
}

pub(crate) fn named(b: Bench, row: usize, n: usize) -> Made
    ensures { result.bench ≡ b }
{
    Made {
        bench: b,
        row: answer_of(row, n),
    }
}

// ---- counters
fn with_counters(b: Bench, c: types::Counters) -> Bench
    ensures { result ≡ with_counters b c }
{
    let mut d = b;
    d.counters = c;
    d
}

fn counted(row: usize, count: usize, n: usize, octets: &[u8], b: Bench) -> Made
    ensures { result.bench ≡ with_counters b (counters_by row count n octets.now b.counters) }
{
    let j = values::counting::after(row, count, n, octets, b.counters);
    let answer = j.answer;
    let table = j.counters;
    Made {
        bench: with_counters(b, table),
        row: rows::judgement(answer),
    }
}

// ---- outstanding commands
fn with_outstanding(b: Bench, t: types::Outstanding) -> Bench
    ensures { result ≡ with_outstanding b t }
{
    let mut d = b;
    d.outstanding = t;
    d
}

fn commanded(row: usize, count: usize, n: usize, octets: &[u8], b: Bench) -> Made
    ensures { result.bench ≡ with_outstanding b (commands_after row count n octets.now b.outstanding) }
{
    let l = values::commands::after(row, count, n, octets, b.outstanding);
    let table = l.outstanding;
    let answer = l.row;
    Made {
        bench: with_outstanding(b, table),
        row: answer,
    }
}

// ---- the beat
// A beat on the record, with the line's number as the limit.
fn beaten(n: usize, b: Bench) -> Made
    ensures { result.bench ≡ with_record b (beat b.«record».count b.«record» (n % 256)).rec }
{
    let t = skelmarix::beat(b.record, (n % 256) as u8);
    let answer = t.answer;
    let after = t.record;
    Made {
        bench: with_record(b, after),
        row: rows::beating(answer),
    }
}

// ---- by the row
pub(crate) fn noted(row: usize, count: usize, n: usize, octets: &[u8], b: Bench) -> Made
    ensures { result.bench ≡ rule.kept_notes row count n octets.now b }
{
    if (table::COUNTER <= row) & (row <= table::JUDGE) {
        return counted(row, count, n, octets, b);
    }
    if row == table::BEAT {
        return beaten(n, b);
    }
    if (table::SENT <= row) & (row <= table::OUTSTANDING) {
        return commanded(row, count, n, octets, b);
    }
    named(note(row, n, b), row, n)
}
