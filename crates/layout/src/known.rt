// Which octets are a state, and a fresh one.
ghost use Rattle.std.specs.Prelude.{◌≡◌, length};
ghost use Rattle.octets.specs.Octets.{Octets};
ghost use Rattle.slots.specs.Below.{all_below};
ghost use Rattle.slots.specs.Slots.{most_slots, fresh_record, told_making};
ghost use Rattle.layout.specs.Layout.{state_size, slot_block, marks_fit, slot_marks_fit, known, kind_octet, state_octets, on_state, making_state};
ghost use Rattle.layout.specs.Changes.{Exact};

use crate::{MARKS, octet_at};
use types::{Kind, PARTS, Refusal, SLOTS, STATE_OCTETS};

// How many octets there are. Of an array it is a constant, and a test of it is none at run time.
fn length_of(s: &[u8]) -> usize
    ensures { result ≡ length s.now }
{
    s.len()
}

fn each_small(s: &[u8]) -> usize
    ensures { Octets s.now }
{
    length_of(s)
}

// What the type of a state says of its octets, told where a proof needs it. Nothing is done at run time.
pub fn exact(state: &[u8; STATE_OCTETS])
    ensures { Exact state.now }
{
    each_small(state);
}

// Whether each mark of slot i is 0 or 1. Faults are gathered in an octet, so that all marks are looked at at once.
fn marks_fit(state: &[u8; STATE_OCTETS], i: usize) -> bool
    ensures { result ≡ marks_fit (slot_block i state.now) }
{
    let mut bad = 0;
    for k in 0..PARTS {
        let wrong = 1 < octet_at(state, i, MARKS + k);
        bad |= u8::from(wrong);
    }
    bad == 0
}

fn all_marks_fit(state: &[u8; STATE_OCTETS]) -> bool
    ensures { result ≡ all_below most_slots (slot_marks_fit state.now) }
{
    let mut ok = true;
    for i in 0..SLOTS {
        ok &= marks_fit(state, i);
    }
    ok
}

// Whether the octets are a state of this format, so that they hold a record.
pub fn is_known(state: &[u8; STATE_OCTETS]) -> bool
    ensures { result ≡ known state.now }
{
    let n = length_of(state);
    let marks = all_marks_fit(state);
    (n == STATE_OCTETS) & (state[0] == 1) & (state[1] <= 1) & marks
}

// ---- a fresh state
pub fn kind_octet(kind: Kind) -> u8
    ensures { result ≡ kind_octet kind }
{
    match kind {
        Kind::Command => 0,
        Kind::Response => 1,
    }
}

fn write_fresh(state: &mut [u8; STATE_OCTETS], kind: Kind, n: u8)
    requires { length state.old ≡ state_size }
    ensures { state.new ≡ state_octets (fresh_record n kind) }
{
    state.fill(0);
    state[0] = 1;
    state[1] = kind_octet(kind);
    state[2] = n;
}

// A state with no series, for one kind of packets, with n slots, 1 to 5; any other number is refused, and the octets are as they were.
pub fn fresh(state: &mut [u8; STATE_OCTETS], kind: Kind, n: u8) -> Result<(), Refusal>
    ensures { on_state (told_making result) state.new ≡ making_state state.old n kind }
{
    let size = length_of(state);
    if size != STATE_OCTETS {
        return Err(Refusal::BufferOrRecord);
    }
    if (n != 0) & !((SLOTS as u8) < n) {
        write_fresh(state, kind, n);
        return Ok(());
    }
    Err(Refusal::SlotNumber)
}
