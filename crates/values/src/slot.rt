// The slot that a line writes, as its words say.
use crate::fields::{pair_at, sender_of};
use types::{Key, Slot};
use words::line::VALUES;

// SENDER, SERIAL and IDENTIFIER are the first eight octets of the line.
fn key_of(values: [u64; VALUES], fields: &[u8]) -> Key {
    Key {
        sender: sender_of(fields),
        width: (values[4] % 256) as u8,
        reference: (values[5] % 65536) as u16,
        serial: types::SerialNumber(pair_at(fields, 4)),
        identifier: types::MessageIdentifier(pair_at(fields, 6)),
    }
}

pub fn slot_of(values: [u64; VALUES], fields: &[u8], p: words::line::Parts) -> Slot {
    let lengths = p.lengths;
    let held = p.held;
    Slot {
        rank: (values[1] % 256) as u8,
        beats: (values[2] % 256) as u8,
        key: key_of(values, fields),
        total: (values[8] % 256) as u8,
        lengths,
        held,
    }
}
