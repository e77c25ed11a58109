// Which slot of a state is free, bears a key, or is taken by a new series (01, "Series"): as `slots::find` has it of a record. Each search goes
// over the record's own slots by index.
ghost use Rattle.std.specs.Prelude.{◌≡◌, ◌<◌};
ghost use Rattle.slots.specs.Slots.{most_slots, bears, is_free, find_in, is_least_recent, least_recent, slots_in};
ghost use Rattle.slots.specs.Found.{told_found, Inside, new_seat, seat_of};
ghost use Rattle.layout.specs.Layout.{state_record};
ghost use Rattle.layout.specs.Changes.{state_slot};

use crate::read::{key_at, rank_at, slots_in};
use slots::find::{Seat, same_key};
use types::{Key, STATE_OCTETS};

// Whether slot i is used, by the series with that key.
pub fn bears(state: &[u8; STATE_OCTETS], i: usize, key: Key) -> bool
    ensures { result ≡ bears key (state_slot state.now i) }
{
    let r = rank_at(state, i);
    let k = key_at(state, i);
    (r != 0) & same_key(k, key)
}

// Whether slot i has the rank r.
fn has_rank(state: &[u8; STATE_OCTETS], i: usize, r: u8) -> bool
    ensures { result ≡ is_least_recent r (state_slot state.now i) }
{
    rank_at(state, i) == r
}

// The slot of the series with that key.
pub fn find_key(state: &[u8; STATE_OCTETS], key: Key) -> Option<usize>
    ensures result_value { told_found result ≡ find_in (slots_in (state_record state.now)) (bears key) (state_record state.now).slots }
    ensures inside { Inside most_slots result }
{
    (0..slots_in(state)).find(|&i| bears(state, i, key))
}

// The first slot of rank r.
pub fn find_rank(state: &[u8; STATE_OCTETS], r: u8) -> Option<usize>
    ensures result_value { told_found result ≡ find_in (slots_in (state_record state.now)) (is_least_recent r) (state_record state.now).slots }
    ensures inside { Inside most_slots result }
{
    (0..slots_in(state)).find(|&i| has_rank(state, i, r))
}

// The lowest free slot.
fn find_free(state: &[u8; STATE_OCTETS]) -> Option<usize>
    ensures result_value { told_found result ≡ find_in (slots_in (state_record state.now)) is_free (state_record state.now).slots }
    ensures inside { Inside most_slots result }
{
    find_rank(state, 0)
}

// The slot of the least recent series, if all are used.
fn least_recent(state: &[u8; STATE_OCTETS]) -> usize
    ensures { (result ≡ least_recent (slots_in (state_record state.now)) (state_record state.now).slots) × (result < most_slots) }
{
    find_rank(state, slots_in(state) as u8).unwrap_or(0)
}

// Where a new series goes: the lowest free slot, or with none free that of the least recent series.
fn new_seat(state: &[u8; STATE_OCTETS]) -> Seat
    ensures { (result ≡ new_seat (slots_in (state_record state.now)) (state_record state.now).slots) × (result.slot < most_slots) }
{
    match find_free(state) {
        Some(i) => Seat {
            slot: i,
            held: false,
            displaced: false,
        },
        None => Seat {
            slot: least_recent(state),
            held: false,
            displaced: true,
        },
    }
}

// Where the series with that key is, or else where a new one goes.
pub fn seat_of(state: &[u8; STATE_OCTETS], key: Key) -> Seat
    ensures { (result ≡ seat_of (slots_in (state_record state.now)) (state_record state.now).slots key) × (result.slot < most_slots) }
{
    match find_key(state, key) {
        Some(i) => Seat {
            slot: i,
            held: true,
            displaced: false,
        },
        None => new_seat(state),
    }
}
