// An entry and its octets (02 [9]): what it says is read field by field. Past the end of what is lent every octet is 0, so each place can be read.
ghost use Rattle.std.specs.Prelude.{◌≡◌, ◌+◌, ◌*◌, ◌<◌};
ghost use Rattle.octets.specs.Octets.{number_of};
ghost use Rattle.plain.specs.Entries.{entry_octets, log_entry_at};
ghost use Rattle.logs.specs.Places.{entry_octet};

use types::{ENTRY_HEAD, ENTRY_OCTETS, Key, MessageIdentifier, PART_OCTETS, SerialNumber};

// ---- reading
// Octet k of entry i.
fn octet(entries: &[u8], i: u8, k: usize) -> u8
    requires { k < entry_octets }
    ensures { result ≡ entry_octet entries.now i k }
{
    let at = usize::from(i) * ENTRY_OCTETS + k;
    if at < entries.len() {
        return entries[at];
    }
    0
}

// The number that octets k and k + 1 of entry i are.
fn pair(entries: &[u8], i: u8, k: usize) -> u16
    requires { k + 1 < entry_octets }
    ensures { result ≡ number_of (entry_octet entries.now i k) (entry_octet entries.now i (k + 1)) }
{
    octets::number_of(octet(entries, i, k), octet(entries, i, k + 1))
}

// A sender's number from its two halves.
fn sender_of(high: u16, low: u16) -> u32
    ensures { result ≡ high * 65536 + low }
{
    u32::from(high) * 65536 + u32::from(low)
}

// What entry i says of its series: its slot, its rank by recency, its count of beats, its key and its total.
pub fn slot_at(entries: &[u8], i: u8) -> u8
    ensures { result ≡ (log_entry_at entries.now i).slot }
{
    octet(entries, i, 0)
}

pub fn rank_at(entries: &[u8], i: u8) -> u8
    ensures { result ≡ (log_entry_at entries.now i).rank }
{
    octet(entries, i, 1)
}

pub fn beats_at(entries: &[u8], i: u8) -> u8
    ensures { result ≡ (log_entry_at entries.now i).beats }
{
    octet(entries, i, 2)
}

pub fn key_at(entries: &[u8], i: u8) -> Key
    ensures { result ≡ (log_entry_at entries.now i).key }
{
    Key {
        sender: sender_of(pair(entries, i, 3), pair(entries, i, 5)),
        width: octet(entries, i, 7),
        reference: pair(entries, i, 8),
        serial: SerialNumber(pair(entries, i, 10)),
        identifier: MessageIdentifier(pair(entries, i, 12)),
    }
}

pub fn total_at(entries: &[u8], i: u8) -> u8
    ensures { result ≡ (log_entry_at entries.now i).total }
{
    octet(entries, i, 14)
}

// What it says of its part: the number, the size, and the octets, where they are.
pub fn number_at(entries: &[u8], i: u8) -> u8
    ensures { result ≡ (log_entry_at entries.now i).number }
{
    octet(entries, i, 15)
}

pub fn size_at(entries: &[u8], i: u8) -> u8
    ensures { result ≡ (log_entry_at entries.now i).size }
{
    octet(entries, i, 16)
}

pub fn part_at<'a>(entries: &'a [u8], i: u8) -> &'a [u8]
    ensures { result.now ≡ (log_entry_at entries.now i).octets }
{
    let from = usize::from(i) * ENTRY_OCTETS + ENTRY_HEAD;
    let room = octets::up_to(arrival::own_octets(entries, from), PART_OCTETS);
    octets::up_to(room, octets::wide(size_at(entries, i)))
}
