// What a state says, read where it is. A slot past the last says what a free one says.
ghost use Rattle.std.specs.Prelude.{◌≡◌, true, false, ◌+◌, ◌≤◌, ◌<◌, get_or, take, drop};
ghost use Rattle.octets.specs.Octets.{number_of};
ghost use Rattle.slots.specs.Slots.{most_slots, slots_in};
ghost use Rattle.layout.specs.Blocks.{slot_size};
ghost use Rattle.layout.specs.Layout.{slot_block, wide_number, state_record, blank, known, mark_octet};
ghost use Rattle.layout.specs.Changes.{state_slot};

use crate::{
    BEATS, BEHIND, BLOCK, HEAD, IDENTIFIER, LENGTHS, MARKS, RANK, REFERENCE, SENDER, SENDER_LOW,
    SERIAL, TOTAL, WIDTH, octet_at,
};
use types::{Key, Kind, MessageIdentifier, PARTS, SLOTS, STATE_OCTETS, SerialNumber};

// ---- the record
pub fn kind_in(state: &[u8; STATE_OCTETS]) -> Kind
    ensures { result ≡ (state_record state.now).kind }
{
    let k = state[1];
    if k == 0 {
        return Kind::Command;
    }
    Kind::Response
}

// The number of slots as the state says it.
pub fn count_in(state: &[u8; STATE_OCTETS]) -> u8
    ensures { result ≡ (state_record state.now).count }
{
    state[2]
}

// How many slots the record has.
pub fn slots_in(state: &[u8; STATE_OCTETS]) -> usize
    ensures { (result ≡ slots_in (state_record state.now)) × (result ≤ most_slots) }
{
    usize::from(count_in(state)).min(SLOTS)
}

// ---- a slot
pub fn rank_at(state: &[u8; STATE_OCTETS], i: usize) -> u8
    ensures { result ≡ (state_slot state.now i).rank }
{
    octet_at(state, i, RANK)
}

pub fn beats_at(state: &[u8; STATE_OCTETS], i: usize) -> u8
    ensures { result ≡ (state_slot state.now i).beats }
{
    octet_at(state, i, BEATS)
}

pub fn total_at(state: &[u8; STATE_OCTETS], i: usize) -> u8
    ensures { result ≡ (state_slot state.now i).total }
{
    octet_at(state, i, TOTAL)
}

// Two octets of slot i as a number.
fn pair_at(state: &[u8; STATE_OCTETS], i: usize, p: usize) -> u16
    requires { p + 1 < slot_size }
    ensures { result ≡ number_of (get_or (slot_block i state.now) p 0) (get_or (slot_block i state.now) (p + 1) 0) }
{
    octets::number_of(octet_at(state, i, p), octet_at(state, i, p + 1))
}

fn wide_number(high: u16, low: u16) -> u32
    ensures { result ≡ wide_number high low }
{
    u32::from(high) * 65536 + u32::from(low)
}

pub fn key_at(state: &[u8; STATE_OCTETS], i: usize) -> Key
    ensures { result ≡ (state_slot state.now i).key }
{
    let high = pair_at(state, i, SENDER);
    let low = pair_at(state, i, SENDER_LOW);
    let sender = wide_number(high, low);
    let width = octet_at(state, i, WIDTH);
    let reference = pair_at(state, i, REFERENCE);
    let serial = pair_at(state, i, SERIAL);
    let identifier = pair_at(state, i, IDENTIFIER);
    Key {
        sender,
        width,
        reference,
        serial: SerialNumber(serial),
        identifier: MessageIdentifier(identifier),
    }
}

// The length of the part at place k of slot i, from 0, and whether it is held.
pub fn length_at(state: &[u8; STATE_OCTETS], i: usize, k: usize) -> u8
    ensures { result ≡ get_or (state_slot state.now i).lengths k 0 }
{
    if k < PARTS {
        return octet_at(state, i, LENGTHS + k);
    }
    0
}

pub fn mark_at(state: &[u8; STATE_OCTETS], i: usize, k: usize) -> bool
    ensures { result ≡ get_or (state_slot state.now i).held k false }
{
    if k < PARTS {
        return octet_at(state, i, MARKS + k) != 0;
    }
    false
}

// The mark as a number, to count it: if the octets are a state, 1 for a part that is held, and 0 for one that is not.
pub fn mark_number(state: &[u8; STATE_OCTETS], i: usize, k: usize) -> u8
    ensures { known state.now ≡ true → result ≡ mark_octet (get_or (state_slot state.now i).held k false) }
{
    if k < PARTS {
        return octet_at(state, i, MARKS + k);
    }
    0
}

// Whether all octets of slot i but its rank are zero. Faults are gathered in an octet, so that all are looked at at once.
pub fn is_blank(state: &[u8; STATE_OCTETS], i: usize) -> bool
    ensures { result ≡ blank (slot_block i state.now) }
{
    let mut bad = 0;
    for p in 0..BEHIND {
        let wrong = octet_at(state, i, p + 1) != 0;
        bad |= u8::from(wrong);
    }
    bad == 0
}

// Octets of the state, where they are.
fn part<'a>(s: &'a [u8], from: usize, n: usize) -> &'a [u8]
    ensures { result.now ≡ take n (drop from s.now) }
{
    octets::up_to(arrival::own_octets(s, from), n)
}

// The lengths of all parts of slot i, where they are.
pub fn lengths_at<'a>(state: &'a [u8; STATE_OCTETS], i: usize) -> &'a [u8]
    ensures { result.now ≡ (state_slot state.now i).lengths }
{
    if i < SLOTS {
        return part(state, HEAD + BLOCK * i + LENGTHS, PARTS);
    }
    part(state, 0, 0)
}
