// The slots of a record: a fresh one, which is free, and which bears a key (01, "Series"). Each search goes over the record's own slots by
// index, and does not look at those past its number.
ghost use Rattle.std.specs.Prelude.{◌≡◌, ◌&&◌, ◌≤◌, ◌<◌, length, ltb};
ghost use Rattle.slots.specs.Slots.{most_slots, default_slots, slot_at, opened, free_slot, same_key, bears, is_free, find_in, is_least_recent, least_recent, slots_in, fresh_record, beside, told_making, making};
ghost use Rattle.slots.specs.Found.{told_found, Inside, new_seat, seat_of, with_part_in};

use types::{
    Key, Kind, Made, MessageIdentifier, PARTS, Record, Refusal, SLOTS, SerialNumber, Slot,
};

// The slot of a series: whether it is held there, and if not, whether it displaces another.
#[derive(Clone, Copy)]
pub struct Seat {
    pub slot: usize,
    pub held: bool,
    pub displaced: bool,
}

// A slot for a series of which no part has come yet.
pub fn opened(key: Key, total: u8) -> Slot
    ensures { result ≡ opened key total }
{
    Slot {
        rank: 0,
        beats: 0,
        key,
        total,
        lengths: [0; PARTS],
        held: [false; PARTS],
    }
}

// A free slot, which is all zero.
pub fn free_slot() -> Slot
    ensures { result ≡ free_slot }
{
    let key = Key {
        sender: 0,
        width: 0,
        reference: 0,
        serial: SerialNumber(0),
        identifier: MessageIdentifier(0),
    };
    opened(key, 0)
}

// A record with no series, for one kind of packets, whose number of slots is n.
fn numbered(kind: Kind, n: u8) -> Record
    ensures { result ≡ fresh_record n kind }
{
    Record {
        kind,
        count: n,
        slots: [free_slot(); SLOTS],
    }
}

// A record with no series, for one kind of packets, with five slots.
pub fn fresh(kind: Kind) -> Record
    ensures { result ≡ fresh_record default_slots kind }
{
    numbered(kind, SLOTS as u8)
}

// The same with n slots, 1 to 5; any other number is refused, and the record beside the refusal is one that no call accepts.
pub fn fresh_with(kind: Kind, n: u8) -> Made
    ensures { beside (told_making result.answer) result.record ≡ making n kind }
{
    if (n != 0) & !((SLOTS as u8) < n) {
        return Made {
            answer: Ok(()),
            record: numbered(kind, n),
        };
    }
    Made {
        answer: Err(Refusal::SlotNumber),
        record: numbered(kind, 0),
    }
}

// How many slots the record has.
pub fn slots_in(state: Record) -> usize
    ensures { (result ≡ slots_in state) × (result ≤ most_slots) }
{
    (state.count as usize).min(SLOTS)
}

// The slot with part `number`, of n octets; if no part has that number, the slot as it is.
pub fn with_part(mut x: Slot, number: usize, n: u8) -> Slot
    ensures { result ≡ with_part_in x number n }
{
    if number != 0 && number <= PARTS {
        let i = number - 1;
        x.lengths[i] = n;
        x.held[i] = true;
    }
    x
}

// Whether two keys are one: every field counts, so 8-bit 2A and 16-bit 002A are two series. Most series of one sender differ by their reference;
// it is looked at first, since that is faster, and the rest only if it is the same.
pub fn same_key(a: Key, b: Key) -> bool
    ensures { result ≡ same_key a b }
{
    a.reference == b.reference && a == b
}

// Whether the slot is used, by the series with that key.
fn bears(key: Key, x: Slot) -> bool
    ensures { result ≡ bears key x }
{
    (x.rank != 0) & same_key(x.key, key)
}

// Whether slot i is one of the record's own, and used by the series with that key.
fn bears_in(state: Record, key: Key, i: usize) -> bool
    requires { i < most_slots }
    ensures { (result ≡ (ltb i (slots_in state) && bears key (slot_at state.slots i))) × (length state.slots ≡ most_slots) }
{
    (i < slots_in(state)) & bears(key, state.slots[i])
}

// The slot of the series with that key. This search and that of a rank ask of each slot by a number that is known when they are compiled: a loop
// over the slots would copy the record first. They are two functions, since the contract of one that takes the test as a closure is longer than both.
fn find_key(state: Record, key: Key) -> Option<usize>
    ensures result_value { told_found result ≡ find_in (slots_in state) (bears key) state.slots }
    ensures inside { Inside most_slots result }
{
    if bears_in(state, key, 0) {
        return Some(0);
    }
    if bears_in(state, key, 1) {
        return Some(1);
    }
    if bears_in(state, key, 2) {
        return Some(2);
    }
    if bears_in(state, key, 3) {
        return Some(3);
    }
    if bears_in(state, key, 4) {
        return Some(4);
    }
    None
}

// Whether slot i is one of the record's own, and has rank r.
fn ranks_in(state: Record, r: u8, i: usize) -> bool
    requires { i < most_slots }
    ensures { (result ≡ (ltb i (slots_in state) && is_least_recent r (slot_at state.slots i))) × (length state.slots ≡ most_slots) }
{
    (i < slots_in(state)) & (state.slots[i].rank == r)
}

// The first slot of rank r.
fn find_rank(state: Record, r: u8) -> Option<usize>
    ensures result_value { told_found result ≡ find_in (slots_in state) (is_least_recent r) state.slots }
    ensures inside { Inside most_slots result }
{
    if ranks_in(state, r, 0) {
        return Some(0);
    }
    if ranks_in(state, r, 1) {
        return Some(1);
    }
    if ranks_in(state, r, 2) {
        return Some(2);
    }
    if ranks_in(state, r, 3) {
        return Some(3);
    }
    if ranks_in(state, r, 4) {
        return Some(4);
    }
    None
}

// The lowest free slot.
fn find_free(state: Record) -> Option<usize>
    ensures result_value { told_found result ≡ find_in (slots_in state) is_free state.slots }
    ensures inside { Inside most_slots result }
{
    find_rank(state, 0)
}

// The slot of the least recent series, if all are used.
fn least_recent(state: Record) -> usize
    ensures { (result ≡ least_recent (slots_in state) state.slots) × (result < most_slots) }
{
    find_rank(state, slots_in(state) as u8).unwrap_or(0)
}

// Where a new series goes: the lowest free slot, or with none free that of the least recent series.
fn new_seat(state: Record) -> Seat
    ensures { (result ≡ new_seat (slots_in state) state.slots) × (result.slot < most_slots) }
{
    match find_free(state) {
        Some(slot) => Seat {
            slot,
            held: false,
            displaced: false,
        },
        None => Seat {
            slot: least_recent(state),
            held: false,
            displaced: true,
        },
    }
}

// Where the series with that key is, or else where a new one goes.
pub fn seat_of(state: Record, key: Key) -> Seat
    ensures { (result ≡ seat_of (slots_in state) state.slots key) × (result.slot < most_slots) }
{
    match find_key(state, key) {
        Some(slot) => Seat {
            slot,
            held: true,
            displaced: false,
        },
        None => new_seat(state),
    }
}
