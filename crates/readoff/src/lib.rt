#![tactic(auto)]
// The record that is read off a log (02 [9]): for each slot a walk to its first entry, which says what is noted of the series, and a walk for each part.
// Every log and all octets can be read; nothing is written.
ghost use Rattle.std.specs.Prelude.{◌≡◌};
ghost use Rattle.plain.specs.Entries.{entries_from};
ghost use Rattle.plain.specs.Log.{first_entry, is_part};
ghost use Rattle.plain.specs.ReadOff.{entry_size, slot_in_log, record_of};
ghost use Rattle.readoff.specs.Filling.{with_parts};

use logs::entries::{beats_at, key_at, rank_at, size_at, total_at};
use logs::walks::{Sought, find, has};
use slots::find::{free_slot, opened};
use types::{Log, PARTS, Record, SLOTS, Slot};

// How many octets part `number` of the slot has; 0 if it is not in the log.
fn size_of(entries: &[u8], count: u8, slot: u8, number: u8) -> u8
    ensures { result ≡ entry_size (first_entry (is_part slot number) (entries_from entries.now 0 count)) }
{
    let i = find(entries, 0, count, Sought::OfPart { slot, number });
    if i < count {
        return size_at(entries, i);
    }
    0
}

// The series as x says it, with the parts of the slot that are in the log.
fn with_parts(entries: &[u8], count: u8, slot: u8, x: Slot) -> Slot
    ensures { result ≡ with_parts (entries_from entries.now 0 count) slot x }
{
    let mut y = x;
    for j in 0..PARTS {
        let number = (j as u8) + 1;
        y.lengths[j] = size_of(entries, count, slot, number);
        y.held[j] = has(entries, count, Sought::OfPart { slot, number });
    }
    y
}

// The slot that is read off the log: free if no entry names it.
fn slot_read(entries: &[u8], count: u8, slot: u8) -> Slot
    ensures { result ≡ slot_in_log (entries_from entries.now 0 count) slot }
{
    let i = find(entries, 0, count, Sought::OfSlot(slot));
    if i < count {
        let mut x = opened(key_at(entries, i), total_at(entries, i));
        x.rank = rank_at(entries, i);
        x.beats = beats_at(entries, i);
        return with_parts(entries, count, slot, x);
    }
    free_slot()
}

// The record that is read off the log: if the log is one that the engine could have made, it is well formed, and it is that of the first engine after the
// same calls. It is for showing; no call needs it.
pub fn log_record(log: Log, entries: &[u8]) -> Record
    ensures { result ≡ record_of log.slots log.kind (entries_from entries.now 0 log.count) }
{
    let x = free_slot();
    let mut slots = [x; SLOTS];
    for i in 0..SLOTS {
        slots[i] = slot_read(entries, log.count, i as u8);
    }
    Record {
        kind: log.kind,
        count: log.slots,
        slots,
    }
}
