// What an example prints of its last answer, and what the library is held to besides.
use skelmarix::{Answer, Record, Taken, first_octets};
use types::Refusal;

// Printed as a word: no refusal has this number.
pub const DIFFERS: u8 = 255;

// The command packet that 01 calls M.
pub const M: [u8; 16] = [0, 0x0E, 0x0D, 0, 0, 0, 0, 0xB0, 0, 0x10, 0, 0, 0, 0, 0, 0];

// What is in a lent buffer before a call: nothing may count on zeros.
pub const BEFORE: u8 = 0xA5;

// The result of the last call of an example.
#[derive(Clone, Copy)]
pub enum Expected {
    // Refused, or M handed out, sixteen octets and no more: no slot is used.
    Ended,
    // Part 2 of so many, with so many octets, is kept in slot 0, and no other part is.
    Second {
        total: u8,
        length: u8,
    },
    // A part is kept in this slot, and the slots hold the series with these references.
    Among {
        slot: usize,
        displaced: bool,
        first: u16,
        second: u16,
        third: u16,
    },
}

// Part 2 alone is kept.
pub fn second(total: u8, length: u8) -> Expected {
    Expected::Second { total, length }
}

// A part is kept in this slot, and the slots hold these series.
pub fn among(slot: usize, displaced: bool, first: u16, second: u16, third: u16) -> Expected {
    Expected::Among {
        slot,
        displaced,
        first,
        second,
        third,
    }
}

// The number of an example, if all else is as 01 says.
pub fn held_to(as_said: bool, number: u8) -> u8 {
    if as_said { number } else { DIFFERS }
}

// Whether the output begins with M, and the octet behind it is as it was.
fn begins_with_m(out: &[u8]) -> bool {
    if out.len() < 17 {
        return false;
    }
    skelmarix::same_octets(first_octets(out, 16), &M) & (out[16] == BEFORE)
}

// The number that is used for the reference of a free slot.
pub const NONE: u16 = 65535;

// The reference in slot i.
fn reference(state: Record, i: usize) -> u16 {
    if 4 < i {
        return NONE;
    }
    let x = state.slots[i];
    if x.rank == 0 {
        return NONE;
    }
    x.key.reference
}

// Whether the first three slots hold the series with these references, and the others none.
fn holds(state: Record, first: u16, second: u16, third: u16) -> bool {
    (reference(state, 0) == first)
        & (reference(state, 1) == second)
        & (reference(state, 2) == third)
        & (reference(state, 3) == NONE)
        & (reference(state, 4) == NONE)
}

// Whether part 2 alone, of this length, is held in slot 0.
fn holds_second(state: Record, total: u8, length: u8) -> bool {
    let x = state.slots[0];
    (x.total == total) & !x.held[0] & x.held[1] & (x.lengths[1] == length)
}

// Whether a part was kept in this slot, displacing a series or not.
fn is_kept(answer: Result<Answer, Refusal>, at: usize, displacing: bool) -> bool {
    match answer {
        Ok(Answer::Kept { slot, displaced }) => (slot == at) & (displaced == displacing),
        _ => false,
    }
}

// The number of an example after which nothing is held.
fn ended(answer: Result<Answer, Refusal>, free: bool, m: bool) -> u8 {
    match answer {
        Err(refusal) => held_to(free, refusal.number()),
        Ok(Answer::Packet { length }) => held_to(free & m & (length == 16), 0),
        _ => DIFFERS,
    }
}

// The number of an example.
fn number(answer: Result<Answer, Refusal>, state: Record, m: bool, expected: Expected) -> u8 {
    match expected {
        Expected::Ended => ended(answer, holds(state, NONE, NONE, NONE), m),
        Expected::Second { total, length } => held_to(
            is_kept(answer, 0, false) & holds_second(state, total, length),
            0,
        ),
        Expected::Among {
            slot,
            displaced,
            first,
            second,
            third,
        } => held_to(
            is_kept(answer, slot, displaced) & holds(state, first, second, third),
            0,
        ),
    }
}

// The number of an example whose last call left this.
pub fn after(taken: Taken, out: &[u8], expected: Expected) -> u8 {
    let answer = taken.answer;
    let state = taken.record;
    number(answer, state, begins_with_m(out), expected)
}
