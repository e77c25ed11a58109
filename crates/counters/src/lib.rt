#![tactic(auto)]
// Counter judgement (02, [8]; TS 102 225): the counter of a plain command against the one that is stored for its application. The table goes in
// and comes back by value; the card keeps it.
ghost use Rattle.std.specs.Prelude.{◌≡◌, ◌≤◌, ◌<◌, length, position};
ghost use Rattle.counters.specs.Counters.{counter_number, all_ones, no_counters, in_use, same_tar, named_twice, unfit_counters, counter_status, judged_at, judged_by, assessed, judge_counter, told_judgement};

use packet::{behind, read};
use types::{COUNTER_ENTRIES, Cntr, CounterEntry, Counters, JudgedCounter, Kind, Refusal, Tar};

// ---- the table
// A table with no entry in use, all zero.
pub fn no_counters() -> Counters
    ensures { result ≡ no_counters }
{
    let zero = CounterEntry {
        tar: Tar(0, 0, 0),
        cntr: Cntr(0, 0, 0, 0, 0),
    };
    Counters {
        count: 0,
        entries: [zero; COUNTER_ENTRIES],
    }
}

// The entries in use.
fn in_use(counters: &Counters) -> &[CounterEntry]
    requires { counters.now.count ≤ 16 }
    ensures { result.now ≡ in_use counters.now }
{
    &counters.entries[..counters.count as usize]
}

// The place of the first entry with a TAR, if one has it.
fn place_of(entries: &[CounterEntry], tar: Tar) -> Option<usize>
    ensures { result ≡ position (λ e. same_tar e.tar tar) entries.now }
{
    entries.iter().position(|entry| entry.tar == tar)
}

// Whether a TAR is named twice among the entries.
fn named_twice(entries: &[CounterEntry]) -> bool
    ensures { result ≡ named_twice entries.now }
{
    let mut rest = entries;
    while let Some((entry, others)) = rest.split_first() {
        if place_of(others, entry.tar).is_some() {
            return true;
        }
        rest = others;
    }
    false
}

// Whether a table is refused.
fn unfit(counters: &Counters) -> bool
    ensures { result ≡ unfit_counters counters.now }
{
    COUNTER_ENTRIES < counters.count as usize || named_twice(in_use(counters))
}

// ---- the status
// A counter as a number, which has 40 bits.
fn value(n: Cntr) -> u64
    ensures { (result ≡ counter_number n) × (result ≤ all_ones) }
{
    u64::from_be_bytes([0, 0, 0, n.0, n.1, n.2, n.3, n.4])
}

// The status of a counter against the one that is stored.
fn status(bits: u8, stored: Cntr, cntr: Cntr) -> u8
    ensures { result ≡ counter_status bits (counter_number stored) (counter_number cntr) }
{
    if bits < 2 {
        return 0;
    }
    let have = value(stored);
    let new = value(cntr);
    if have == 0xFFFFFFFFFF {
        return 4;
    }
    if new <= have {
        return 2;
    }
    if (bits == 3) & (have + 1 < new) {
        return 3;
    }
    0
}

// ---- the call
// A command against the entry at a place: the status, with which the counter may be stored there.
fn judged_at(counters: &mut Counters, i: usize, packet: &[u8]) -> u8
    requires { (16 ≤ length packet.now) × (i < 16) }
    ensures { (result, counters.new) ≡ judged_at counters.old i packet.now }
{
    let cntr = behind::cntr_at(packet, 10);
    let bits = packet[3] / 8 % 4;
    let s = status(bits, counters.entries[i].cntr, cntr);
    if (2 <= bits) & (s == 0) {
        counters.entries[i].cntr = cntr;
    }
    s
}

// The status of a command that can be read and is plain, against a table that is not refused.
fn judged(counters: &mut Counters, packet: &[u8]) -> u8
    requires { (16 ≤ length packet.now) × (counters.old.count ≤ 16) }
    ensures { (result, counters.new) ≡ judged_by counters.old packet.now }
{
    match place_of(in_use(counters), behind::tar_at(packet, 7)) {
        None => 9,
        Some(i) => judged_at(counters, i, packet),
    }
}

// The answer of a call, in the order of the refusals. A refusal leaves the table as it was.
fn answer_of(counters: &mut Counters, packet: &[u8]) -> Result<u8, Refusal>
    ensures { assessed (told_judgement result) counters.new ≡ judge_counter counters.old packet.now }
{
    let ciphered = read::ciphered_command(packet);
    read::judge(Kind::Command, ciphered, packet)?;
    if ciphered {
        return Err(Refusal::CipherMismatch);
    }
    if unfit(counters) {
        return Err(Refusal::CounterTable);
    }
    Ok(judged(counters, packet))
}

// Judges the counter of a command: the status and the table as it is afterwards, or refusal 9, 12, 15, 10 or 19.
pub fn judge_counter(mut counters: Counters, packet: &[u8]) -> JudgedCounter
    ensures { assessed (told_judgement result.answer) result.counters ≡ judge_counter counters packet.now }
{
    let answer = answer_of(&mut counters, packet);
    JudgedCounter { answer, counters }
}
