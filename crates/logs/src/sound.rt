// The test of a log (02 [9]): "1 also for a log it could not have made". One function for each test of the rule, in its order.
ghost use Rattle.std.specs.Prelude.{◌≡◌, ◌+◌, ◌-◌, ◌<◌};
ghost use Rattle.arrival.specs.Keys.{length_fits};
ghost use Rattle.slots.specs.Slots.{is_slot_number};
ghost use Rattle.plain.specs.Entries.{log_entry_at, entries_from, state_in};
ghost use Rattle.plain.specs.Log.{has_entry, is_part};
ghost use Rattle.logs.specs.Places.{series_fits, part_fits};
ghost use Rattle.plain.specs.Engine.{rank_fits, entry_formed, log_formed, state_formed};

use crate::entries::{beats_at, key_at, number_at, rank_at, size_at, slot_at, total_at};
use crate::walks::{Sought, complete, find, has};
use arrival::keys::room;
use formed::{key_formed, total_fits};
use types::{Key, Kind, LOG_ENTRIES, LOG_OCTETS, Log, PAGE_CONTENT, SLOTS};

// Whether a log can have that many slots.
pub fn is_slot_number(n: u8) -> bool
    ensures { result ≡ is_slot_number n }
{
    (n != 0) & !(SLOTS < n as usize)
}

// ---- one entry
// Whether a part of that number can have so many octets.
fn length_fits(key: Key, number: u8, size: u8) -> bool
    ensures { result ≡ length_fits key number size }
{
    let n = octets::wide(size);
    let most = room(key.width as u32, number as usize);
    if key.width == 0 {
        return n == PAGE_CONTENT;
    }
    n <= most
}

// Whether what entry i says of its series can be, and of its part.
fn series_fits(entries: &[u8], i: u8, kind: Kind, n: u8) -> bool
    ensures { result ≡ series_fits n kind (log_entry_at entries.now i) }
{
    let rank = rank_at(entries, i);
    let key = key_at(entries, i);
    let keyed = key_formed(kind, key);
    let totalled = total_fits(key, total_at(entries, i));
    (slot_at(entries, i) < n)
        & (0 < rank)
        & (rank <= n)
        & (beats_at(entries, i) <= 254)
        & keyed
        & totalled
}

fn part_fits(entries: &[u8], i: u8) -> bool
    ensures { result ≡ part_fits (log_entry_at entries.now i) }
{
    let number = number_at(entries, i);
    let sized = length_fits(key_at(entries, i), number, size_at(entries, i));
    (0 < number) & (number <= total_at(entries, i)) & sized
}

// The rank before a rank.
fn before(rank: u8) -> u8
    ensures { result ≡ rank - 1 }
{
    if rank == 0 {
        return 0;
    }
    rank - 1
}

// Whether the series of entry i is the most recent, or another has the rank before it.
fn rank_fits(entries: &[u8], count: u8, i: u8) -> bool
    ensures { result ≡ rank_fits (entries_from entries.now 0 count) (log_entry_at entries.now i) }
{
    let rank = rank_at(entries, i);
    let led = has(entries, count, Sought::OfRank(before(rank)));
    (rank == 1) | led
}

// Whether entry i can be in the log: by itself, beside the others, by its rank, and because a part of its series is missing. No part has the number 0.
fn entry_formed(entries: &[u8], count: u8, i: u8, kind: Kind, n: u8) -> bool
    ensures { result ≡ entry_formed n kind (entries_from entries.now 0 count) (log_entry_at entries.now i) }
{
    let fits = series_fits(entries, i, kind, n) & part_fits(entries, i);
    let beset = has(entries, count, Sought::Against(i));
    let ranked = rank_fits(entries, count, i);
    let whole = complete(entries, count, slot_at(entries, i), total_at(entries, i), 0);
    fits & !beset & ranked & !whole
}

// Whether the part of entry i is in the log once more, behind it.
fn is_twice(entries: &[u8], count: u8, i: u8) -> bool
    requires { i < count }
    ensures { result ≡ has_entry (is_part (log_entry_at entries.now i).slot (log_entry_at entries.now i).number) (entries_from entries.now (i + 1) (count - (i + 1))) }
{
    let slot = slot_at(entries, i);
    let number = number_at(entries, i);
    let found = find(entries, i + 1, count, Sought::OfPart { slot, number });
    found < count
}

// ---- the log
// Whether each entry can be in it, and no part is there twice.
fn log_formed(entries: &[u8], count: u8, kind: Kind, n: u8) -> bool
    ensures { result ≡ log_formed n kind (entries_from entries.now 0 count) }
{
    if !is_slot_number(n) {
        return false;
    }
    for i in 0..count {
        let formed = entry_formed(entries, count, i, kind, n);
        let twice = is_twice(entries, count, i);
        if !formed | twice {
            return false;
        }
    }
    true
}

// Whether the octets lent are as many as a log has, and the log is one that the engine could have made.
pub fn state_formed(log: Log, entries: &[u8]) -> bool
    ensures { result ≡ state_formed (state_in log entries.now) }
{
    if entries.len() != LOG_OCTETS {
        return false;
    }
    if LOG_ENTRIES < log.count as usize {
        return false;
    }
    log_formed(entries, log.count, log.kind, log.slots)
}
