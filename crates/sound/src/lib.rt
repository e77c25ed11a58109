#![tactic(auto)]
// Which states hold a well-formed record: the tests of `formed`, in their order, on a slot's octets where they are.
pub mod beat;

ghost use Rattle.std.specs.Prelude.{◌≡◌, true, cond, ◌&&◌, ◌≤◌, ◌<◌};
ghost use Rattle.arrival.specs.Message.{most_parts};
ghost use Rattle.slots.specs.Below.{all_below};
ghost use Rattle.slots.specs.Slots.{most_slots, used, same_key};
ghost use Rattle.formed.specs.Formed.{mark_at, part_formed, held_count, used_formed, slot_formed, count_ahead, used_count, is_rank, ranked, record_formed};
ghost use Rattle.formed.specs.Pieces.{slots_hold, pair_apart, apart_before, slots_apart};
ghost use Rattle.layout.specs.Layout.{state_record, known};
ghost use Rattle.layout.specs.Changes.{state_slot};

use formed::{fewest, key_formed, most, total_fits};
use layout::known::is_known;
use layout::read::{
    beats_at, count_in, is_blank, key_at, kind_in, length_at, mark_at, mark_number, rank_at,
    total_at,
};
use slots::find::same_key;
use types::{Kind, PARTS, SLOTS, STATE_OCTETS};

// ---- a slot
// Whether each part of a used slot is as it can be. The bounds of a length depend on the key alone, but for part 1, which is looked at by
// itself: if it is missing its length is 0, which fits. Faults are gathered in an octet, and no test leaves the loop, so that all parts are looked
// at at once.
fn parts_formed(state: &[u8; STATE_OCTETS], i: usize) -> bool
    ensures { result ≡ all_below most_parts (part_formed (state_slot state.now i)) }
{
    let key = key_at(state, i);
    let low = fewest(key);
    let high = most(key, 2);
    let total = total_at(state, i);
    let mut bad = 0;
    for k in 0..PARTS {
        let h = mark_at(state, i, k);
        let n = length_at(state, i, k);
        let out = (total <= k as u8) | (n < low) | (high < n);
        let wrong = (h & out) | (!h & (n != 0));
        bad |= u8::from(wrong);
    }
    let first = length_at(state, i, 0);
    (bad == 0) & (first <= most(key, 1))
}

// The mark of the part at place k, to count it: in a state it is 0 or 1.
fn mark_in(state: &[u8; STATE_OCTETS], i: usize, k: usize) -> u8
    requires { known state.now ≡ true }
    ensures { result ≡ cond (mark_at (state_slot state.now i) k) 1 0 }
{
    mark_number(state, i, k)
}

// How many parts slot i holds.
fn held_count(state: &[u8; STATE_OCTETS], i: usize) -> u8
    requires { known state.now ≡ true }
    ensures { result ≡ held_count (state_slot state.now i) }
{
    let mut m = 0;
    for k in 0..PARTS {
        m += mark_in(state, i, k);
    }
    m
}

// Whether a used slot is well formed: key, total and parts, at least one held and not all, and its count of beats.
fn used_formed(state: &[u8; STATE_OCTETS], i: usize, kind: Kind) -> bool
    requires { known state.now ≡ true }
    ensures { result ≡ used_formed kind (state_slot state.now i) }
{
    let key = key_at(state, i);
    let total = total_at(state, i);
    let beats = beats_at(state, i);
    let m = held_count(state, i);
    let parts = parts_formed(state, i);
    key_formed(kind, key) & total_fits(key, total) & parts & (0 < m) & (m < total) & (beats <= 254)
}

// Whether slot i is well formed, used or free. A free one is all zero.
fn slot_formed(state: &[u8; STATE_OCTETS], i: usize, kind: Kind) -> bool
    requires state_value { known state.now ≡ true }
    requires i_lt_most_slots { i < most_slots }
    ensures { result ≡ slot_formed kind (state_slot state.now i) }
{
    let free = rank_at(state, i) == 0;
    if free {
        return is_blank(state, i);
    }
    used_formed(state, i, kind)
}

// Whether each slot is well formed, and those past the first n are free.
fn slots_formed(state: &[u8; STATE_OCTETS], n: usize, kind: Kind) -> bool
    requires { known state.now ≡ true }
    ensures { result ≡ slots_hold n kind (state_record state.now).slots }
{
    let mut ok = true;
    for i in 0..SLOTS {
        let r = rank_at(state, i);
        ok &= slot_formed(state, i, kind) & ((i < n) | (r == 0));
    }
    ok
}

// ---- two slots
// Whether two slots are used with one key.
fn key_twice(state: &[u8; STATE_OCTETS], i: usize, j: usize) -> bool
    ensures { result ≡ (used (state_slot state.now i) && used (state_slot state.now j) && same_key (state_slot state.now i).key (state_slot state.now j).key) }
{
    let p = rank_at(state, i);
    let q = rank_at(state, j);
    let key = key_at(state, i);
    let other = key_at(state, j);
    let same = same_key(key, other);
    (p != 0) & (q != 0) & same
}

// Whether slot i is used and has a higher count of beats than slot j, a less recent one.
fn count_ahead(state: &[u8; STATE_OCTETS], i: usize, j: usize) -> bool
    ensures { result ≡ count_ahead (state_slot state.now i) (state_slot state.now j) }
{
    let p = rank_at(state, i);
    let q = rank_at(state, j);
    let m = beats_at(state, i);
    let n = beats_at(state, j);
    (p != 0) & (p < q) & (n < m)
}

// Whether two slots can be in one record: they are not used with one key, and the more recent one has no higher count of beats.
fn pair_apart(state: &[u8; STATE_OCTETS], i: usize, j: usize) -> bool
    ensures { result ≡ pair_apart (state_slot state.now i) (state_slot state.now j) }
{
    let twice = key_twice(state, i, j);
    let ahead = count_ahead(state, i, j);
    let behind = count_ahead(state, j, i);
    !twice & (!ahead & !behind)
}

// ---- the slots
// Whether slot i can be in one record with each slot before it. A free one always can.
fn apart_before(state: &[u8; STATE_OCTETS], i: usize) -> bool
    ensures { result ≡ apart_before (state_record state.now).slots i }
{
    let free = rank_at(state, i) == 0;
    if free {
        return true;
    }
    let mut ok = true;
    for j in 0..i {
        ok &= pair_apart(state, i, j);
    }
    ok
}

// Whether no two used slots of the first n have one key, and none has a higher count of beats than a less recent one.
fn slots_apart(state: &[u8; STATE_OCTETS], n: usize) -> bool
    ensures { result ≡ slots_apart n (state_record state.now).slots }
{
    let mut ok = true;
    for i in 0..n {
        ok &= apart_before(state, i);
    }
    ok
}

// How many of the first n slots are used.
fn used_count(state: &[u8; STATE_OCTETS], n: usize) -> u8
    requires { n ≤ most_slots }
    ensures { (result ≡ used_count n (state_record state.now).slots) × (result ≤ most_slots) }
{
    let mut m = 0;
    for i in 0..n {
        m += u8::from(rank_at(state, i) != 0);
    }
    m
}

// Whether one of the first n slots has the rank r.
fn is_rank(state: &[u8; STATE_OCTETS], n: usize, r: u8) -> bool
    ensures { result ≡ is_rank n (state_record state.now).slots r }
{
    let mut any = false;
    for i in 0..n {
        any |= rank_at(state, i) == r;
    }
    any
}

// Whether the used slots of the first n are ranked 1, 2, .. without a gap: of each rank up to their number there is a slot.
fn ranked(state: &[u8; STATE_OCTETS], n: usize) -> bool
    requires { n ≤ most_slots }
    ensures { result ≡ ranked n (state_record state.now).slots }
{
    let m = used_count(state, n);
    let mut ok = true;
    for r in 0..m {
        ok &= is_rank(state, n, r + 1);
    }
    ok
}

// ---- the state
// Whether the record that the octets hold is well formed: it has 1 to 5 slots, and they are as they can be.
fn record_formed(state: &[u8; STATE_OCTETS]) -> bool
    requires { known state.now ≡ true }
    ensures { result ≡ record_formed (state_record state.now).count (state_record state.now) }
{
    let kind = kind_in(state);
    let n = usize::from(count_in(state));
    if (n != 0) & !(SLOTS < n) {
        return slots_formed(state, n, kind) & slots_apart(state, n) & ranked(state, n);
    }
    false
}

// Whether the octets are a state, and the record that it holds is one that the library can have made.
pub fn state_formed(state: &[u8; STATE_OCTETS]) -> bool
    ensures { result ≡ (known state.now && record_formed (state_record state.now).count (state_record state.now)) }
{
    is_known(state) && record_formed(state)
}
