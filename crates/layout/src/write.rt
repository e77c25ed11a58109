// The fields of one slot, changed where they are. If there is no slot i, nothing is changed.
ghost use Rattle.std.specs.Prelude.{◌≡◌, ◌+◌, ◌/◌, ◌%◌, ◌<◌};
ghost use Rattle.slots.specs.Slots.{opened, free_slot, at_rank, at_count, at_front};
ghost use Rattle.slots.specs.Found.{with_part_in};
ghost use Rattle.layout.specs.Blocks.{slot_size};
ghost use Rattle.layout.specs.Layout.{slot_block};
ghost use Rattle.layout.specs.Changes.{state_slot, with_slot, Stored, Became, with_pair, with_sender, with_numbers, slot_with_key, with_total};

use crate::{
    BEATS, BLOCK, IDENTIFIER, LENGTHS, MARKS, RANK, REFERENCE, SENDER, SENDER_LOW, SERIAL, TOTAL,
    WIDTH, set_octet,
};
use types::{Key, PARTS, SLOTS, STATE_OCTETS};

pub fn set_rank(state: &mut [u8; STATE_OCTETS], i: usize, r: u8)
    ensures { Became state.old state.new (with_slot state.old i (at_rank r (state_slot state.old i))) }
{
    set_octet(state, i, RANK, r);
}

pub fn set_beats(state: &mut [u8; STATE_OCTETS], i: usize, b: u8)
    ensures { Became state.old state.new (with_slot state.old i (at_count b (state_slot state.old i))) }
{
    set_octet(state, i, BEATS, b);
}

fn set_total(state: &mut [u8; STATE_OCTETS], i: usize, n: u8)
    ensures { Became state.old state.new (with_slot state.old i (with_total n (state_slot state.old i))) }
{
    set_octet(state, i, TOTAL, n);
}

// Slot i is at the front: the most recent, and no beat has come since.
pub fn set_front(state: &mut [u8; STATE_OCTETS], i: usize)
    ensures { Became state.old state.new (with_slot state.old i (at_front (state_slot state.old i))) }
{
    set_rank(state, i, 1);
    set_beats(state, i, 0);
}

// Slot i has part `number`, of n octets; if no part has that number, it is as it was.
pub fn put_part(state: &mut [u8; STATE_OCTETS], i: usize, number: usize, n: u8)
    ensures { Became state.old state.new (with_slot state.old i (with_part_in (state_slot state.old i) number n)) }
{
    if (1..=PARTS).contains(&number) {
        let k = number - 1;
        set_octet(state, i, LENGTHS + k, n);
        set_octet(state, i, MARKS + k, 1);
    }
}

// ---- a key
// Two octets of slot i become a number.
fn set_pair(state: &mut [u8; STATE_OCTETS], i: usize, p: usize, n: u16)
    requires { p + 1 < slot_size }
    ensures { Stored state.old state.new i (with_pair (slot_block i state.old) p n) }
{
    let pair = octets::pair_of(n);
    set_octet(state, i, p, pair.0);
    set_octet(state, i, p + 1, pair.1);
}

// A number of 32 bits as two of 16.
pub fn high(n: u32) -> u16
    ensures { result ≡ n / 65536 }
{
    (n / 65536) as u16
}

pub fn low(n: u32) -> u16
    ensures { result ≡ n % 65536 }
{
    (n % 65536) as u16
}

// The sender of slot i, and the three numbers of its key behind the width.
fn put_sender(state: &mut [u8; STATE_OCTETS], i: usize, sender: u32)
    ensures { Stored state.old state.new i (with_sender (slot_block i state.old) sender) }
{
    set_pair(state, i, SENDER, high(sender));
    set_pair(state, i, SENDER_LOW, low(sender));
}

fn put_numbers(
    state: &mut [u8; STATE_OCTETS],
    i: usize,
    reference: u16,
    serial: u16,
    identifier: u16,
)
    ensures { Stored state.old state.new i (with_numbers (slot_block i state.old) reference serial identifier) }
{
    set_pair(state, i, REFERENCE, reference);
    set_pair(state, i, SERIAL, serial);
    set_pair(state, i, IDENTIFIER, identifier);
}

fn put_key(state: &mut [u8; STATE_OCTETS], i: usize, key: Key)
    ensures { Became state.old state.new (with_slot state.old i (slot_with_key key (state_slot state.old i))) }
{
    put_sender(state, i, key.sender);
    set_octet(state, i, WIDTH, key.width);
    put_numbers(state, i, key.reference, key.serial.0, key.identifier.0);
}

// ---- a whole slot
// Slot i is free, and all of it is zero.
pub fn clear(state: &mut [u8; STATE_OCTETS], i: usize)
    ensures { Became state.old state.new (with_slot state.old i free_slot) }
{
    if i < SLOTS {
        for p in 0..BLOCK {
            set_octet(state, i, p, 0);
        }
    }
}

// Slot i is that of a series of which no part has come yet.
pub fn open(state: &mut [u8; STATE_OCTETS], i: usize, key: Key, total: u8)
    ensures { Became state.old state.new (with_slot state.old i (opened key total)) }
{
    clear(state, i);
    put_key(state, i, key);
    set_total(state, i, total);
}
