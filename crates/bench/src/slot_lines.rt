// `slot I RANK BEATS SENDER WIDTH REFERENCE SERIAL IDENTIFIER TOTAL PART..` puts a slot into the record as it is written, so that records which the
// library could not have made can be tried. What the slot holds is held to stored lines.
ghost use Rattle.std.specs.Prelude.{◌≡◌, true, ◌<◌, set};
ghost use Rattle.skelmarix.specs.Rules.{with_slots};
ghost use Rattle.words.specs.Line.{gathered};
ghost use Rattle.changes.specs.Kept.{with_record};
ghost use Rattle.bench.specs.Lines.{SlotPut};

use crate::Heard;
use answers::record;
use changes::Bench;
use types::{Record, Slot};
use words::line::Line;

// The record with a slot put.
fn put_slot(r: Record, i: usize, x: Slot) -> Record
    requires { i < 5 }
    ensures { result ≡ with_slots r (set r.slots i x) }
{
    let mut q = r;
    q.slots[i] = x;
    q
}

fn put(b: Bench, i: usize, x: Slot, text: &mut [u8], at: usize) -> Heard
    requires { i < 5 }
    ensures { (result.understood ≡ true) × (result.bench ≡ with_record b (with_slots b.«record» (set b.«record».slots i x))) }
{
    let after = put_slot(b.record, i, x);
    crate::answered(
        changes::with_record(b, after),
        record::slot_at(i, x, text, at),
    )
}

// A line whose words before the parts are understood.
pub fn slot_line(b: Bench, l: Line, line: &[u8], text: &mut [u8], at: usize) -> Heard
    ensures { SlotPut (gathered l line.now) b result }
{
    let values = l.values;
    let i = crate::first(values);
    if i < types::SLOTS {
        if let Some(parts) = words::line::parts_in(line, l.at) {
            return put(b, i, values::slot::slot_of(values, line, parts), text, at);
        }
    }
    crate::unanswered(b, at)
}
