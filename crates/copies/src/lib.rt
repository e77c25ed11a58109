#![tactic(auto)]
// The log of the plain engine as it is changed (02 [9]): a fresh one; copies of it, made in place, with other ranks and counts, without the entries that
// go, and with an entry more; and the beat. What is no log, or has no room, a copy leaves as it is.
ghost use Rattle.std.specs.Prelude.{◌≡◌, true, false, [], ◌∷◌, ◌++◌, map, ◌+◌, ◌/◌, ◌%◌, ◌≤◌, ◌<◌, length};
ghost use Rattle.slots.specs.Order.{rank_after};
ghost use Rattle.slots.specs.Slots.{told_making};
ghost use Rattle.beats.specs.Beats.{told_beating};
ghost use Rattle.plain.specs.Entries.{most_entries, log_octets, log_entry_at, entries_from, state_in, head_of};
ghost use Rattle.plain.specs.Log.{only, without, touch, close, log_after_beat};
ghost use Rattle.plain.specs.Engine.{all_of, beside_log, making_log, beaten_log, log_beat};
ghost use Rattle.logs.specs.Places.{entry_octets_at};
ghost use Rattle.copies.specs.Copying.{rank_noted, beats_noted, alter, renoted, altered, low, goes, remains, copied, kept_entry, kept_place, part_entry, CanChange, CanKeep, ChangesTo, beat_refused};

use logs::entries::{beats_at, rank_at, slot_at};
use logs::sound::{is_slot_number, state_formed};
use logs::walks::{dead_count, is_due};
use types::{
    ENTRY_HEAD, ENTRY_OCTETS, Key, Kind, LOG_ENTRIES, LOG_OCTETS, Log, LogBeaten, LogMade,
    PART_OCTETS, Refusal,
};

// ---- a fresh log
// A log without entries, for packets of that kind and that many slots. The octets that are lent with it may hold anything.
pub fn fresh_log(kind: Kind, n: u8) -> LogMade
    ensures { beside_log (told_making result.answer) result.log ≡ making_log n kind }
{
    if is_slot_number(n) {
        return LogMade {
            answer: Ok(()),
            log: Log {
                kind,
                slots: n,
                count: 0,
            },
        };
    }
    LogMade {
        answer: Err(Refusal::SlotNumber),
        log: Log {
            kind,
            slots: 0,
            count: 0,
        },
    }
}

// What a copy alters in each entry: the series of a slot that had that rank comes to the front; a series of that rank was dropped; a beat.
#[derive(Clone, Copy)]
enum Change {
    Touch { slot: u8, rank: u8 },
    Close { rank: u8 },
    Beat,
}

// What a copy leaves out: the series of a slot, and every series that one beat more brings to the limit.
#[derive(Clone, Copy)]
enum Gone {
    InSlot(u8),
    AtLimit(u8),
}

// ---- ranks and counts
// The rank of an entry after a series of rank r has come to the front: what was more recent is one less so. No log that was made has a rank or a count of
// 255, and neither rises further: so no octet runs over, whatever is lent.
fn aged(r: u8, rank: u8) -> u8
    ensures { result ≡ rank_after true r rank }
{
    if 255 <= rank {
        return rank;
    }
    let moves = (rank != 0) & ((r == 0) | (rank < r));
    if moves {
        return rank + 1;
    }
    rank
}

// The rank after a series of rank r was dropped: what was less recent moves up.
fn closed(r: u8, rank: u8) -> u8
    ensures { result ≡ rank_after false r rank }
{
    if r < rank {
        return rank - 1;
    }
    rank
}

// The rank that an entry of that slot notes after the change, and its count of beats.
fn rank_after(change: Change, slot: u8, rank: u8) -> u8
    ensures { result ≡ rank_noted change slot rank }
{
    match change {
        Change::Touch { slot: s, rank: r } => {
            if slot == s {
                return 1;
            }
            aged(r, rank)
        }
        Change::Close { rank: r } => closed(r, rank),
        Change::Beat => rank,
    }
}

fn beats_after(change: Change, slot: u8, beats: u8) -> u8
    ensures { result ≡ beats_noted change slot beats }
{
    match change {
        Change::Touch { slot: s, rank: r } => {
            if slot == s {
                return 0;
            }
            beats
        }
        Change::Close { rank: r } => beats,
        Change::Beat => {
            if 255 <= beats {
                return beats;
            }
            beats + 1
        }
    }
}

// Entry i notes that rank and that count; nothing else changes.
fn note(entries: &mut [u8], i: u8, rank: u8, beats: u8)
    requires { (i < most_entries) × (length entries.old ≡ log_octets) }
    ensures { entries.new ≡ renoted entries.old i rank beats }
{
    let at = usize::from(i) * ENTRY_OCTETS;
    let r = at + 1;
    let b = at + 2;
    entries[r] = rank;
    entries[b] = beats;
}

// Entry i changes.
fn alter(entries: &mut [u8], i: u8, change: Change)
    requires { (i < most_entries) × (length entries.old ≡ log_octets) }
    ensures { entries.new ≡ altered change entries.old i }
{
    let slot = slot_at(entries, i);
    let rank = rank_after(change, slot, rank_at(entries, i));
    let beats = beats_after(change, slot, beats_at(entries, i));
    note(entries, i, rank, beats);
}

// Every entry changes.
fn alter_all(entries: &mut [u8], count: u8, change: Change)
    requires { (count ≤ most_entries) × (length entries.old ≡ log_octets) }
    ensures { entries_from entries.new 0 count ≡ map (alter change) (entries_from entries.old 0 count) }
{
    for i in 0..count {
        alter(entries, i, change);
    }
}

// ---- leaving out
// The octets of entry i, where they are.
fn octets_of<'a>(entries: &'a [u8], i: u8) -> &'a [u8]
    requires { (i < most_entries) × (length entries.now ≡ log_octets) }
    ensures { result.now ≡ entry_octets_at entries.now i }
{
    let from = usize::from(i) * ENTRY_OCTETS;
    let end = from + ENTRY_OCTETS;
    &entries[from..end]
}

// Entry i is copied to the place `to`.
fn copy_entry(entries: &mut [u8], i: u8, to: u8)
    requires { (i < most_entries) × (to < most_entries) × (length entries.old ≡ log_octets) }
    ensures { entries.new ≡ copied entries.old i to }
{
    let mut work = [0u8; 151];
    octets::put(octets_of(entries, i), &mut work, 0);
    octets::put(&work, entries, (to as usize) * ENTRY_OCTETS);
}

// Whether entry i goes.
fn is_gone(entries: &[u8], i: u8, gone: Gone) -> bool
    ensures { result ≡ goes gone (log_entry_at entries.now i) }
{
    match gone {
        Gone::InSlot(slot) => slot_at(entries, i) == slot,
        Gone::AtLimit(limit) => is_due(entries, i, limit),
    }
}

// Entry i is copied to the place `to` unless it goes; the place for the next.
fn keep_entry(entries: &mut [u8], i: u8, to: u8, gone: Gone) -> u8
    requires { (i < most_entries) × (to < most_entries) × (length entries.old ≡ log_octets) }
    ensures entries_after { entries.new ≡ kept_entry gone entries.old i to }
    ensures value { result ≡ kept_place gone entries.old i to }
{
    let goes = is_gone(entries, i, gone);
    if goes {
        return to;
    }
    copy_entry(entries, i, to);
    to + 1
}

// The log is copied without the entries that go; how many are left.
fn leave_out(entries: &mut [u8], count: u8, gone: Gone) -> u8
    requires { (count ≤ most_entries) × (length entries.old ≡ log_octets) }
    ensures { (entries_from entries.new 0 result ≡ only (remains gone) (entries_from entries.old 0 count)) × (result ≤ count) }
{
    let mut to = 0;
    for i in 0..count {
        to = keep_entry(entries, i, to, gone);
    }
    to
}

// ---- an entry more
// The halves of a sender's number.
fn upper(n: u32) -> u16
    ensures { result ≡ n / 65536 }
{
    (n / 65536) as u16
}

fn lower(n: u32) -> u16
    ensures { result ≡ n % 65536 }
{
    (n % 65536) as u16
}

// The octets before a part: its series is the most recent, and its count is 0.
fn head(slot: u8, key: Key, total: u8, number: u8, part: &[u8]) -> [u8; 17]
    requires { length part.now ≤ 134 }
    ensures { result ≡ head_of (part_entry slot key total number part.now) }
{
    let a = octets::pair_of(upper(key.sender));
    let b = octets::pair_of(lower(key.sender));
    let c = octets::pair_of(key.reference);
    let d = octets::pair_of(key.serial.0);
    let e = octets::pair_of(key.identifier.0);
    let size = part.len() as u8;
    [
        slot, 1, 0, a.0, a.1, b.0, b.1, key.width, c.0, c.1, d.0, d.1, e.0, e.1, total, number,
        size,
    ]
}

// Behind the entries that there are, part `number` of the series of that slot is written.
fn append(entries: &mut [u8], count: u8, slot: u8, key: Key, total: u8, number: u8, part: &[u8])
    requires { (count < most_entries) × (length entries.old ≡ log_octets) × (length part.now ≤ 134) }
    ensures { entries_from entries.new 0 (count + 1) ≡ entries_from entries.old 0 count ++ part_entry slot key total number part.now ∷ [] }
{
    let h = head(slot, key, total, number, part);
    let at = (count as usize) * ENTRY_OCTETS;
    octets::put(&h, entries, at);
    octets::put(part, entries, at + ENTRY_HEAD);
}

// ---- a series
// The series of that slot and rank becomes the most recent; how many entries there are.
pub fn touch_series(entries: &mut [u8], count: u8, slot: u8, rank: u8) -> u8
    ensures { ChangesTo (CanChange entries.old count) (entries_from entries.new 0 result) (touch slot rank (entries_from entries.old 0 count)) }
{
    if entries.len() != LOG_OCTETS {
        return count;
    }
    if LOG_ENTRIES < count as usize {
        return count;
    }
    alter_all(entries, count, Change::Touch { slot, rank });
    count
}

// The same, and part `number` of it is in the log.
pub fn keep_part(
    entries: &mut [u8],
    count: u8,
    slot: u8,
    rank: u8,
    key: Key,
    total: u8,
    number: u8,
    part: &[u8],
) -> u8
    ensures { ChangesTo (CanKeep entries.old count part.now) (entries_from entries.new 0 result) (touch slot rank (entries_from entries.old 0 count) ++ part_entry slot key total number part.now ∷ []) }
{
    if entries.len() != LOG_OCTETS {
        return count;
    }
    if LOG_ENTRIES <= count as usize {
        return count;
    }
    if PART_OCTETS < part.len() {
        return count;
    }
    alter_all(entries, count, Change::Touch { slot, rank });
    append(entries, count, slot, key, total, number, part);
    count + 1
}

// The same of a new series in that slot: what is there is left out first.
pub fn open_series(
    entries: &mut [u8],
    count: u8,
    slot: u8,
    rank: u8,
    key: Key,
    total: u8,
    number: u8,
    part: &[u8],
) -> u8
    ensures { ChangesTo (CanKeep entries.old count part.now) (entries_from entries.new 0 result) (touch slot rank (without slot (entries_from entries.old 0 count)) ++ part_entry slot key total number part.now ∷ []) }
{
    if entries.len() != LOG_OCTETS {
        return count;
    }
    if LOG_ENTRIES < count as usize {
        return count;
    }
    let left = leave_out(entries, count, Gone::InSlot(slot));
    keep_part(entries, left, slot, rank, key, total, number, part)
}

// The series of that slot and rank is dropped; how many entries are left.
pub fn drop_series(entries: &mut [u8], count: u8, slot: u8, rank: u8) -> u8
    ensures { ChangesTo (CanChange entries.old count) (entries_from entries.new 0 result) (close rank (without slot (entries_from entries.old 0 count))) }
{
    if entries.len() != LOG_OCTETS {
        return count;
    }
    if LOG_ENTRIES < count as usize {
        return count;
    }
    let left = leave_out(entries, count, Gone::InSlot(slot));
    alter_all(entries, left, Change::Close { rank: rank });
    left
}

// ---- a beat
// A beat: every series that it brings to the limit is dropped, the others are one beat older; how many entries are left.
fn age_all(entries: &mut [u8], count: u8, limit: u8) -> u8
    requires count_le_most_entries { (count ≤ most_entries) × (length entries.old ≡ log_octets) }
    requires count_value { all_of low (entries_from entries.old 0 count) ≡ true }
    ensures { entries_from entries.new 0 result ≡ log_after_beat limit (entries_from entries.old 0 count) }
{
    let left = leave_out(entries, count, Gone::AtLimit(limit));
    alter_all(entries, left, Change::Beat);
    left
}

// Every series is one beat older, and each that has reached the limit is dropped. A refused beat leaves each octet of the log as it was.
pub fn beat_log(log: Log, limit: u8, entries: &mut [u8]) -> LogBeaten
    ensures entries_after { beaten_log (told_beating result.answer) (state_in result.log entries.new) ≡ log_beat (state_in log entries.old) limit }
    ensures entries_unchanged { beat_refused (told_beating result.answer) ≡ true → entries.new ≡ entries.old }
{
    let formed = state_formed(log, entries);
    if !formed {
        return LogBeaten {
            answer: Err(Refusal::BufferOrRecord),
            log,
        };
    }
    if limit == 0 {
        return LogBeaten {
            answer: Err(Refusal::BeatLimit),
            log,
        };
    }
    let kind = log.kind;
    let dropped = dead_count(entries, log.count, log.slots, limit);
    let left = age_all(entries, log.count, limit);
    LogBeaten {
        answer: Ok(dropped),
        log: Log {
            kind,
            slots: log.slots,
            count: left,
        },
    }
}
