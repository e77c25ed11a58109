// Searches (02 [9]): "each search a walk from its start". One loop finds the first entry that is looked for; the others ask it once for each slot or
// each number.
ghost use Rattle.std.specs.Prelude.{◌≡◌, suc, ◌-◌, leb};
ghost use Rattle.plain.specs.Entries.{log_entry_at, entries_from};
ghost use Rattle.plain.specs.Log.{first_entry, has_entry, is_part, free_from, dead, log_dropped};
ghost use Rattle.plain.specs.Engine.{agrees, contends, against};
ghost use Rattle.logs.specs.Places.{seek, found_at, free_at, all_in_log};

use crate::entries::{beats_at, key_at, number_at, rank_at, slot_at, total_at};
use slots::find::same_key;
use types::Key;

// What is looked for: a series by its key, by its slot or by its rank, a part, whatever cannot be in one log with entry i, and a series that a beat with
// that limit drops.
#[derive(Clone, Copy)]
pub enum Sought {
    OfKey(Key),
    OfSlot(u8),
    OfPart { slot: u8, number: u8 },
    OfRank(u8),
    Against(u8),
    Dead { slot: u8, limit: u8 },
}

// ---- one entry
// Whether entries i and j of one slot agree in what they say of its series.
fn agrees(entries: &[u8], i: u8, j: u8) -> bool
    ensures { result ≡ agrees (log_entry_at entries.now i) (log_entry_at entries.now j) }
{
    let ranks = rank_at(entries, j) == rank_at(entries, i);
    let beats = beats_at(entries, j) == beats_at(entries, i);
    let keys = same_key(key_at(entries, j), key_at(entries, i));
    ranks & beats & keys & (total_at(entries, j) == total_at(entries, i))
}

// Whether entries i and j of two slots cannot be: with one key or one rank, or if the more recent has the higher count.
fn contends(entries: &[u8], i: u8, j: u8) -> bool
    ensures { result ≡ contends (log_entry_at entries.now i) (log_entry_at entries.now j) }
{
    let keys = same_key(key_at(entries, j), key_at(entries, i));
    let p = rank_at(entries, j);
    let q = rank_at(entries, i);
    let older = beats_at(entries, i) < beats_at(entries, j);
    keys | (p == q) | ((p < q) & older)
}

// Whether entries i and j cannot be in one log.
fn against(entries: &[u8], i: u8, j: u8) -> bool
    ensures { result ≡ against (log_entry_at entries.now i) (log_entry_at entries.now j) }
{
    if slot_at(entries, j) == slot_at(entries, i) {
        return !agrees(entries, i, j);
    }
    contends(entries, i, j)
}

// Whether entry j is part `number` of that slot.
fn is_part(entries: &[u8], j: u8, slot: u8, number: u8) -> bool
    ensures { result ≡ is_part slot number (log_entry_at entries.now j) }
{
    (slot_at(entries, j) == slot) & (number_at(entries, j) == number)
}

// Whether one beat more brings the series of entry j to the limit.
pub fn is_due(entries: &[u8], j: u8, limit: u8) -> bool
    ensures { result ≡ leb limit (suc (log_entry_at entries.now j).beats) }
{
    octets::wide(limit) <= octets::wide(beats_at(entries, j)) + 1
}

// Whether entry j is of that slot and a beat with that limit drops it.
fn is_dead(entries: &[u8], j: u8, slot: u8, limit: u8) -> bool
    ensures { result ≡ dead limit slot (log_entry_at entries.now j) }
{
    (slot_at(entries, j) == slot) & is_due(entries, j, limit)
}

// Whether entry j is one that is looked for.
fn passes(entries: &[u8], j: u8, sought: Sought) -> bool
    ensures { result ≡ seek entries.now sought (log_entry_at entries.now j) }
{
    match sought {
        Sought::OfKey(key) => same_key(key_at(entries, j), key),
        Sought::OfSlot(slot) => slot_at(entries, j) == slot,
        Sought::OfPart { slot, number } => is_part(entries, j, slot, number),
        Sought::OfRank(rank) => rank_at(entries, j) == rank,
        Sought::Against(i) => against(entries, i, j),
        Sought::Dead { slot, limit } => is_dead(entries, j, slot, limit),
    }
}

// ---- walks
// The place of the first entry from `from` on that is looked for; behind the last if there is none.
pub fn find(entries: &[u8], from: u8, count: u8, sought: Sought) -> u8
    ensures { found_at entries.now count result ≡ first_entry (seek entries.now sought) (entries_from entries.now from (count - from)) }
{
    for i in from..count {
        if passes(entries, i, sought) {
            return i;
        }
    }
    count
}

// Whether the log has an entry that is looked for.
pub fn has(entries: &[u8], count: u8, sought: Sought) -> bool
    ensures { result ≡ has_entry (seek entries.now sought) (entries_from entries.now 0 count) }
{
    find(entries, 0, count, sought) < count
}

// Whether each part of the slot up to the total is in the log, or has the number.
pub fn complete(entries: &[u8], count: u8, slot: u8, total: u8, number: u8) -> bool
    ensures { result ≡ all_in_log slot number (entries_from entries.now 0 count) total }
{
    let mut ok = true;
    for k in 0..total {
        let next = k + 1;
        let held = has(entries, count, Sought::OfPart { slot, number: next });
        ok &= (next == number) | held;
    }
    ok
}

// The lowest of the n slots that no entry names; n if there is none.
pub fn free_slot(entries: &[u8], count: u8, n: u8) -> u8
    ensures { free_at n result ≡ free_from (entries_from entries.now 0 count) 0 n }
{
    for i in 0..n {
        if !has(entries, count, Sought::OfSlot(i)) {
            return i;
        }
    }
    n
}

// Of how many of the n slots a beat with that limit drops the series.
pub fn dead_count(entries: &[u8], count: u8, n: u8, limit: u8) -> u8
    ensures { result ≡ log_dropped n limit (entries_from entries.now 0 count) }
{
    let mut dropped = 0;
    for i in 0..n {
        dropped += u8::from(has(entries, count, Sought::Dead { slot: i, limit }));
    }
    dropped
}
