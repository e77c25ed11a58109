// What a record and the tables hold, as `record`, `slot`, `counters` and `outstanding` print it.
ghost use Rattle.std.specs.Prelude.{◌<◌};

use crate::{Buffers, number, say};
use types::{PARTS, Slot};
use values::rows;
use values::rows::{Row, Value};

// Prints a row that has no octets of buffers.
pub fn alone(row: Row, text: &mut [u8], at: usize) -> usize {
    crate::print(row, Buffers::all(&[]), text, at)
}

// ---- slots
// ` NUMBER:LENGTH` of a part that is held, ` NUMBER=LENGTH` of a length that is not, and nothing of neither.
fn part(held: bool, place: usize, length: u8, text: &mut [u8], at: usize) -> usize
    requires { place < 16 }
{
    if !held & (length == 0) {
        return at;
    }
    let at = crate::count(place as u64 + 1, text, at);
    let at = say(if held { b":" } else { b"=" }, text, at);
    number(length as u64, text, at)
}

// ` RANK BEATS SENDER WIDTH REFERENCE SERIAL IDENTIFIER TOTAL`, and each part.
pub fn slot(x: Slot, text: &mut [u8], at: usize) -> usize {
    let mut at = alone(rows::slot(x), text, at);
    for i in 0..PARTS {
        at = part(x.held[i], i, x.lengths[i], text, at);
    }
    at
}

// `slot I` and what it then holds.
pub fn slot_at(i: usize, x: Slot, text: &mut [u8], at: usize) -> usize {
    let at = alone(Row::new("slot", &[Value::Number(i as u64)]), text, at);
    slot(x, text, at)
}

// `record KIND`, and `; SLOT` for each slot.
pub fn record(r: types::Record, text: &mut [u8], at: usize) -> usize {
    let mut at = alone(rows::head(r.kind), text, at);
    for x in r.slots.iter().take(r.count as usize) {
        at = say(b";", text, at);
        at = slot(*x, text, at);
    }
    at
}

// ---- counters
// `counters N`, and `; TAR CNTR` for each entry that is in use.
pub fn counters(c: types::Counters, text: &mut [u8], at: usize) -> usize {
    let mut at = alone(
        Row::new("counters", &[Value::Number(c.count as u64)]),
        text,
        at,
    );
    for e in c.entries.iter().take(c.count as usize) {
        at = say(b";", text, at);
        at = alone(rows::entry(*e), text, at);
    }
    at
}

// ---- outstanding commands
// `outstanding N`, and `; SENDER TAR CNTR` for each entry that is in use.
pub fn outstanding(t: types::Outstanding, text: &mut [u8], at: usize) -> usize {
    let mut at = alone(
        Row::new("outstanding", &[Value::Number(t.count as u64)]),
        text,
        at,
    );
    for c in t.entries.iter().take(t.count as usize) {
        at = say(b";", text, at);
        at = alone(rows::command_sent(*c), text, at);
    }
    at
}
