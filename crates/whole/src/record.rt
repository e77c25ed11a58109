// The record that the octets of a state hold, as a value.
ghost use Rattle.std.specs.Prelude.{◌≡◌, ◌<◌};
ghost use Rattle.slots.specs.Slots.{most_slots};
ghost use Rattle.layout.specs.Layout.{state_record};
ghost use Rattle.layout.specs.Changes.{state_slot, Exact};

use layout::known::exact;
use layout::read::{beats_at, count_in, key_at, kind_in, length_at, mark_at, rank_at, total_at};
use types::{PARTS, Record, STATE_OCTETS, Slot};

fn lengths_in(state: &[u8; STATE_OCTETS], i: usize) -> [u8; PARTS]
    requires exact { Exact state.now }
    requires i_lt_most_slots { i < most_slots }
    ensures { result ≡ (state_slot state.now i).lengths }
{
    let mut lengths = [0; PARTS];
    for k in 0..PARTS {
        lengths[k] = length_at(state, i, k);
    }
    lengths
}

fn marks_in(state: &[u8; STATE_OCTETS], i: usize) -> [bool; PARTS]
    requires exact { Exact state.now }
    requires i_lt_most_slots { i < most_slots }
    ensures { result ≡ (state_slot state.now i).held }
{
    let mut held = [false; PARTS];
    for k in 0..PARTS {
        held[k] = mark_at(state, i, k);
    }
    held
}

fn slot_in(state: &[u8; STATE_OCTETS], i: usize) -> Slot
    requires exact { Exact state.now }
    requires i_lt_most_slots { i < most_slots }
    ensures { result ≡ state_slot state.now i }
{
    Slot {
        rank: rank_at(state, i),
        beats: beats_at(state, i),
        key: key_at(state, i),
        total: total_at(state, i),
        lengths: lengths_in(state, i),
        held: marks_in(state, i),
    }
}

// The record that the octets hold, whatever they are: each field is read where its place is. If they are a state, `state_put` writes them again.
pub fn state_record(state: &[u8; STATE_OCTETS]) -> Record
    ensures { result ≡ state_record state.now }
{
    exact(state);
    Record {
        kind: kind_in(state),
        count: count_in(state),
        slots: [
            slot_in(state, 0),
            slot_in(state, 1),
            slot_in(state, 2),
            slot_in(state, 3),
            slot_in(state, 4),
        ],
    }
}
