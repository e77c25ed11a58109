// A record written as the octets of a state.
ghost use Rattle.std.specs.Prelude.{◌≡◌, map, ◌+◌, ◌≤◌, length};
ghost use Rattle.octets.specs.Octets.{placed};
ghost use Rattle.layout.specs.Blocks.{slot_size};
ghost use Rattle.layout.specs.Shapes.{ShapedSlot};
ghost use Rattle.layout.specs.Layout.{mark_octet, slot_head, slot_octets, state_octets};

use layout::known::{exact, kind_octet};
use layout::write::{high, low};
use types::{PARTS, Record, SLOTS, STATE_OCTETS, Slot};

// The octets before the first slot, those of a slot, and where its lengths and its marks are among them.
const HEAD: usize = 3;

const BLOCK: usize = 46;

const LENGTHS: usize = 14;

const MARKS: usize = 30;

// ---- a slot
// What is before the lengths.
fn head_of(x: Slot) -> [u8; LENGTHS]
    ensures { result ≡ slot_head x }
{
    let top = octets::pair_of(high(x.key.sender));
    let rest = octets::pair_of(low(x.key.sender));
    let reference = octets::pair_of(x.key.reference);
    let serial = octets::pair_of(x.key.serial.0);
    let identifier = octets::pair_of(x.key.identifier.0);
    [
        x.rank,
        x.beats,
        top.0,
        top.1,
        rest.0,
        rest.1,
        x.key.width,
        reference.0,
        reference.1,
        serial.0,
        serial.1,
        identifier.0,
        identifier.1,
        x.total,
    ]
}

fn marks_of(x: Slot) -> [u8; PARTS]
    ensures value { result ≡ map mark_octet x.held }
    ensures shaped_slot { ShapedSlot x }
{
    let held = x.held;
    let mut marks = [0; PARTS];
    for k in 0..PARTS {
        marks[k] = held[k] as u8;
    }
    marks
}

// The octets of a slot, from the place `at` on.
fn put_slot(x: Slot, state: &mut [u8; STATE_OCTETS], at: usize)
    requires { at + slot_size ≤ length state.old }
    ensures x_len { length (slot_octets x) ≡ slot_size }
    ensures state_after { state.new ≡ placed state.old at (slot_octets x) }
{
    let head = head_of(x);
    let lengths = x.lengths;
    let marks = marks_of(x);
    octets::put(&head, state, at);
    octets::put(&lengths, state, at + LENGTHS);
    octets::put(&marks, state, at + MARKS);
}

// ---- the record
// Writes the record as a state: its format, kind and number of slots, then slot after slot. `state_record` reads it back.
pub fn state_put(record: Record, state: &mut [u8; STATE_OCTETS])
    ensures { state.new ≡ state_octets «record» }
{
    exact(state);
    let kind = record.kind;
    let slots = record.slots;
    state[0] = 1;
    state[1] = kind_octet(kind);
    state[2] = record.count;
    for i in 0..SLOTS {
        put_slot(slots[i], state, HEAD + BLOCK * i);
    }
}
