#![tactic(auto)]
// Which records are well formed (01, "Numbers"): one function for each test of the rules, in their order, and one loop for each test that goes
// over the parts of a slot or over the slots.
ghost use Rattle.std.specs.Prelude.{◌≡◌, cond, ◌&&◌, ◌≤◌, ◌<◌, length};
ghost use Rattle.arrival.specs.Message.{most_parts};
ghost use Rattle.arrival.specs.Keys.{message_key_formed, page_key_formed, key_formed, total_fits};
ghost use Rattle.slots.specs.Below.{all_below};
ghost use Rattle.slots.specs.Slots.{most_slots, used, same_key};
ghost use Rattle.formed.specs.Formed.{zero_key, zero_part, all_zero, part_formed, held_count, used_formed, slot_formed, count_ahead, ranked, record_formed};
ghost use Rattle.formed.specs.Pieces.{fewest, most, slots_hold, pair_apart, slots_apart, five_of, gapless};

use arrival::keys::{in_range, is_pageless, reference_fits, room};
use slots::find::same_key;
use types::{Key, Kind, MessageIdentifier, PAGE_CONTENT, PARTS, Record, SLOTS, SerialNumber, Slot};

// The key of a free slot.
const NO_KEY: Key = Key {
    sender: 0,
    width: 0,
    reference: 0,
    serial: SerialNumber(0),
    identifier: MessageIdentifier(0),
};

// A flag as a number, to count it.
pub fn one(flag: bool) -> u8
    ensures { (result ≡ cond flag 1 0) × (result ≤ 1) }
{
    u8::from(flag)
}

// Whether a key with a width is one of a short message: its reference fits the width, and what only pages have is zero.
fn message_key_formed(key: Key) -> bool
    ensures { result ≡ message_key_formed key }
{
    let fits = reference_fits(key.width as u32, key.reference as u32);
    fits & (key.serial.0 == 0) & (key.identifier.0 == 0)
}

// Whether a key without a width is one of pages, in a record of that kind.
fn page_key_formed(kind: Kind, key: Key) -> bool
    ensures { result ≡ page_key_formed kind key }
{
    !is_pageless(kind) & (key.sender == 0) & (key.reference == 0) & in_range(key.identifier)
}

// Whether a key is one that reading gives for a record of that kind.
pub fn key_formed(kind: Kind, key: Key) -> bool
    ensures { result ≡ key_formed kind key }
{
    if key.width == 0 {
        return page_key_formed(kind, key);
    }
    message_key_formed(key)
}

// Whether a series with that key can have that total.
pub fn total_fits(key: Key, total: u8) -> bool
    ensures { result ≡ total_fits key total }
{
    if key.width == 0 {
        return (2 <= total) & (total <= 15);
    }
    (2 <= total) & (total <= PARTS as u8)
}

// The fewest and the most octets of part `number` of a series with that key.
pub fn fewest(key: Key) -> u8
    ensures { result ≡ fewest key }
{
    if key.width == 0 {
        return PAGE_CONTENT as u8;
    }
    0
}

pub fn most(key: Key, number: usize) -> u8
    ensures { result ≡ most key number }
{
    if key.width == 0 {
        return PAGE_CONTENT as u8;
    }
    room(key.width as u32, number) as u8
}

// Whether a free slot's key is all zero.
fn zero_key(key: Key) -> bool
    ensures { result ≡ zero_key key }
{
    key == NO_KEY
}

// Whether no part of the slot is marked or has a length. Faults are gathered in an octet here and below, and no test leaves the loop, so that
// all parts are looked at at once.
fn zero_parts(x: Slot) -> bool
    ensures { result ≡ all_below most_parts (zero_part x) }
{
    let mut bad = 0;
    for i in 0..PARTS {
        let wrong = x.held[i] | (x.lengths[i] != 0);
        bad |= wrong as u8;
    }
    bad == 0
}

// Whether all of the slot but its rank is zero.
fn all_zero(x: Slot) -> bool
    ensures { result ≡ all_zero x }
{
    zero_key(x.key) & (x.total == 0) & (x.beats == 0) & zero_parts(x)
}

// Whether each part of a used slot is as it can be. The bounds of a length depend on the key alone, but for part 1, which is looked at by
// itself: if it is missing its length is 0, which fits.
fn parts_formed(x: Slot) -> bool
    ensures { result ≡ all_below most_parts (part_formed x) }
{
    let key = x.key;
    let low = fewest(key);
    let high = most(key, 2);
    let total = x.total;
    let mut bad = 0;
    for i in 0..PARTS {
        let h = x.held[i];
        let n = x.lengths[i];
        let out = (total <= i as u8) | (n < low) | (high < n);
        let wrong = (h & out) | (!h & (n != 0));
        bad |= wrong as u8;
    }
    (bad == 0) & (x.lengths[0] <= most(key, 1))
}

// How many parts the slot holds.
fn held_count(x: Slot) -> u8
    ensures { result ≡ held_count x }
{
    let mut m = 0;
    for i in 0..PARTS {
        m += one(x.held[i]);
    }
    m
}

// Whether a used slot is well formed: key, total and parts, at least one held and not all, and its count of beats.
fn used_formed(kind: Kind, x: Slot) -> bool
    ensures { result ≡ used_formed kind x }
{
    let m = held_count(x);
    key_formed(kind, x.key)
        & total_fits(x.key, x.total)
        & parts_formed(x)
        & (0 < m)
        & (m < x.total)
        & (x.beats <= 254)
}

// Whether a slot is well formed, used or free.
fn slot_formed(kind: Kind, x: Slot) -> bool
    ensures { result ≡ slot_formed kind x }
{
    if x.rank == 0 {
        return all_zero(x);
    }
    used_formed(kind, x)
}

// Whether two slots are used with one key.
fn key_twice(x: Slot, y: Slot) -> bool
    ensures { result ≡ (used x && used y && same_key x.key y.key) }
{
    (x.rank != 0) & (y.rank != 0) & same_key(x.key, y.key)
}

// Whether a used slot has a higher count of beats than a less recent one.
fn count_ahead(x: Slot, y: Slot) -> bool
    ensures { result ≡ count_ahead x y }
{
    (x.rank != 0) & (x.rank < y.rank) & (y.beats < x.beats)
}

// Whether two slots can be in one record: they are not used with one key, and the more recent one has no higher count of beats.
fn pair_apart(x: Slot, y: Slot) -> bool
    ensures { result ≡ pair_apart x y }
{
    !key_twice(x, y) & (!count_ahead(x, y) & !count_ahead(y, x))
}

// Whether each slot is well formed, those past the record's own are free, no two used slots have one key, and none has a higher count of beats than a
// less recent one. One loop over the slots and over the pairs of each used one holds the record: each function that holds it copies it. The array has
// as many slots as its type says.
fn slots_hold(state: Record) -> bool
    ensures { (result ≡ (slots_hold state.count state.kind state.slots && slots_apart most_slots state.slots)) × (length state.slots ≡ most_slots) }
{
    let kind = state.kind;
    let n = state.count as usize;
    let mut ok = true;
    let mut i = 0;
    let mut j = 0;
    while i < SLOTS {
        let x = state.slots[i];
        let paired = (j < i) & (x.rank != 0);
        if paired {
            let y = state.slots[j];
            ok &= pair_apart(x, y);
            j += 1;
        } else {
            ok &= slot_formed(kind, x) & ((i < n) | (x.rank == 0));
            i += 1;
            j = 0;
        }
    }
    ok
}

// Whether the ranks that are not 0 are 1, 2, .. without a gap: each number up to how many there are is one of the five. They are five numbers and no
// array, so that they can stay in registers.
fn gapless(a: u8, b: u8, c: u8, d: u8, e: u8) -> bool
    ensures { result ≡ gapless (five_of a b c d e) }
{
    let m = one(a != 0) + one(b != 0) + one(c != 0) + one(d != 0) + one(e != 0);
    let mut ok = true;
    for r in 0..m {
        let k = r + 1;
        ok &= (a == k) | (b == k) | (c == k) | (d == k) | (e == k);
    }
    ok
}

// Whether the used slots are ranked so. Each slot is read by a number that is known when this is compiled, which needs no copy of the record.
fn ranked(state: Record) -> bool
    ensures { result ≡ ranked most_slots state.slots }
{
    gapless(
        state.slots[0].rank,
        state.slots[1].rank,
        state.slots[2].rank,
        state.slots[3].rank,
        state.slots[4].rank,
    )
}

// Whether the library can have made the record: it has 1 to 5 slots, and they are as they can be.
pub fn record_formed(state: Record) -> bool
    ensures { result ≡ record_formed state.count state }
{
    let n = state.count as usize;
    if (n != 0) & !(SLOTS < n) {
        return slots_hold(state) & ranked(state);
    }
    false
}
