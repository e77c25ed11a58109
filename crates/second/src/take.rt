// Taking a part (02 [9]): 7, 8, 9 as in the first engine. What is due is told by walks, and then the log is copied.
ghost use Rattle.std.specs.Prelude.{◌≡◌, false, cond, length};
ghost use Rattle.octets.specs.Octets.{same_octets};
ghost use Rattle.packet.specs.Packets.{most_octets};
ghost use Rattle.arrival.specs.Arrivals.{told_arrival};
ghost use Rattle.arrival.specs.Keys.{of_pages};
ghost use Rattle.joined.specs.Fronts.{packet_in, told_size};
ghost use Rattle.series.specs.Taking.{held_already, refused_by, told_answer};
ghost use Rattle.series.specs.Deciding.{answer_of, Fitting};
ghost use Rattle.plain.specs.Entries.{log_entry_at, entries_from};
ghost use Rattle.plain.specs.Log.{touch, close, without, result_of, log_hand_out, in_series, log_take_part};
ghost use Rattle.plain.specs.Engine.{alters_nothing, log_taken};
ghost use Rattle.logs.specs.Places.{found_at};
ghost use Rattle.copies.specs.Copying.{SoundLog, CanChange, CanKeep};
ghost use Rattle.second.specs.Acting.{ReadyLog, Stays, only_reads, whole_of, lacking, slot_or_first, Opened};

use crate::packets::{hand_out, hand_out_series};
use copies::{drop_series, keep_part, open_series, touch_series};
use logs::entries::{part_at, rank_at, slot_at, total_at};
use logs::walks::{Sought, complete, find, free_slot};
use series::take::handed;
use types::{Answer, Arrival, Key, Kind, Refusal};

// What taking a part comes to: the answer, and how many entries there are afterwards.
#[derive(Clone, Copy)]
pub(crate) struct Done {
    pub answer: Result<Answer, Refusal>,
    pub count: u8,
}

// ---- a series that is there
// The part is held, in entry i: with the same octets its series becomes the most recent, with others the part is refused.
fn take_again(entries: &mut [u8], count: u8, slot: u8, rank: u8, i: u8, part: &[u8]) -> Done
    requires { CanChange entries.old count }
    ensures answer_value { told_answer result.answer ≡ cond (same_octets (log_entry_at entries.old i).octets part.now) (held_already slot) (refused_by 8) }
    ensures count_after { entries_from entries.new 0 result.count ≡ cond (same_octets (log_entry_at entries.old i).octets part.now) (touch slot rank (entries_from entries.old 0 count)) (entries_from entries.old 0 count) }
    ensures fact { Stays (alters_nothing (told_answer result.answer)) entries.old entries.new }
{
    let same = octets::same(part_at(entries, i), part);
    if same {
        let more = touch_series(entries, count, slot, rank);
        return Done {
            answer: Ok(Answer::HeldAlready {
                slot: usize::from(slot),
            }),
            count: more,
        };
    }
    Done {
        answer: Err(Refusal::OtherOctets),
        count,
    }
}

// The series of that slot and rank is complete with the part: it is handed out and dropped, and dropped too if its parts join to no packet.
fn finish(
    n: u8,
    kind: Kind,
    entries: &mut [u8],
    count: u8,
    slot: u8,
    rank: u8,
    key: Key,
    total: u8,
    number: u8,
    part: &[u8],
    output: &mut [u8],
) -> Done
    requires { ReadyLog n kind entries.old count key total number part.now output.old }
    ensures output_after { result_of (told_answer result.answer) (entries_from entries.new 0 result.count) output.new ≡ log_hand_out (close rank (without slot (entries_from entries.old 0 count))) output.old (packet_in kind (of_pages key) total (whole_of (entries_from entries.old 0 count) slot total number part.now)) }
    ensures answer_value { alters_nothing (told_answer result.answer) ≡ false }
{
    let paged = key.width == 0;
    let size = hand_out_series(
        kind, paged, entries, count, slot, total, number, part, output,
    );
    let left = drop_series(entries, count, slot, rank);
    Done {
        answer: handed(size),
        count: left,
    }
}

// A part that the series of that slot and rank lacks: it is the last one, or it is kept.
fn take_missing(
    n: u8,
    kind: Kind,
    entries: &mut [u8],
    count: u8,
    slot: u8,
    rank: u8,
    key: Key,
    total: u8,
    number: u8,
    part: &[u8],
    output: &mut [u8],
) -> Done
    requires { ReadyLog n kind entries.old count key total number part.now output.old }
    ensures output_after { result_of (told_answer result.answer) (entries_from entries.new 0 result.count) output.new ≡ lacking kind (entries_from entries.old 0 count) output.old slot rank key total number part.now }
    ensures answer_value { alters_nothing (told_answer result.answer) ≡ false }
{
    let last = complete(entries, count, slot, total, number);
    if last {
        return finish(
            n, kind, entries, count, slot, rank, key, total, number, part, output,
        );
    }
    let more = keep_part(entries, count, slot, rank, key, total, number, part);
    Done {
        answer: Ok(Answer::Kept {
            slot: usize::from(slot),
            displaced: false,
        }),
        count: more,
    }
}

// A part of the series that entry i is of.
fn take_more(
    n: u8,
    kind: Kind,
    entries: &mut [u8],
    count: u8,
    i: u8,
    key: Key,
    total: u8,
    number: u8,
    part: &[u8],
    output: &mut [u8],
) -> Done
    requires { ReadyLog n kind entries.old count key total number part.now output.old }
    ensures output_after { result_of (told_answer result.answer) (entries_from entries.new 0 result.count) output.new ≡ in_series n kind (entries_from entries.old 0 count) output.old key total number part.now (log_entry_at entries.old i) }
    ensures fact { Stays (alters_nothing (told_answer result.answer)) entries.old entries.new }
{
    let slot = slot_at(entries, i);
    let rank = rank_at(entries, i);
    let noted = total_at(entries, i);
    if noted != total {
        return Done {
            answer: Err(Refusal::OtherTotal),
            count,
        };
    }
    let j = find(entries, 0, count, Sought::OfPart { slot, number });
    if j < count {
        return take_again(entries, count, slot, rank, j, part);
    }
    take_missing(
        n, kind, entries, count, slot, rank, key, total, number, part, output,
    )
}

// ---- a new series
// The slot of entry i, or the first slot if there is no such entry.
fn slot_or_first(entries: &[u8], count: u8, i: u8) -> u8
    ensures { result ≡ slot_or_first (found_at entries.now count i) }
{
    if i < count {
        return slot_at(entries, i);
    }
    0
}

// The first part of a series: it takes the lowest free slot, and with none free that of the least recent series.
fn take_new(
    n: u8,
    entries: &mut [u8],
    count: u8,
    key: Key,
    total: u8,
    number: u8,
    part: &[u8],
) -> Done
    requires { CanKeep entries.old count part.now }
    ensures fact { Opened n (entries_from entries.old 0 count) key total number part.now (told_answer result.answer) (entries_from entries.new 0 result.count) }
    ensures answer_value { alters_nothing (told_answer result.answer) ≡ false }
{
    let free = free_slot(entries, count, n);
    if free < n {
        let more = open_series(entries, count, free, 0, key, total, number, part);
        return Done {
            answer: Ok(Answer::Kept {
                slot: usize::from(free),
                displaced: false,
            }),
            count: more,
        };
    }
    let last = find(entries, 0, count, Sought::OfRank(n));
    let slot = slot_or_first(entries, count, last);
    let more = open_series(entries, count, slot, n, key, total, number, part);
    Done {
        answer: Ok(Answer::Kept {
            slot: usize::from(slot),
            displaced: true,
        }),
        count: more,
    }
}

// ---- a part
pub(crate) fn take_part(
    n: u8,
    kind: Kind,
    entries: &mut [u8],
    count: u8,
    key: Key,
    total: u8,
    number: u8,
    part: &[u8],
    output: &mut [u8],
) -> Done
    requires { ReadyLog n kind entries.old count key total number part.now output.old }
    ensures output_after { result_of (told_answer result.answer) (entries_from entries.new 0 result.count) output.new ≡ log_take_part n kind (entries_from entries.old 0 count) output.old key total number part.now }
    ensures fact { Stays (alters_nothing (told_answer result.answer)) entries.old entries.new }
{
    let i = find(entries, 0, count, Sought::OfKey(key));
    if i < count {
        return take_more(n, kind, entries, count, i, key, total, number, part, output);
    }
    take_new(n, entries, count, key, total, number, part)
}

// ---- an arrival
// Takes what reading the octets of a message or a page gave: a refusal is passed on, and a single message or page is handed out.
pub(crate) fn take_brought(
    n: u8,
    kind: Kind,
    entries: &mut [u8],
    count: u8,
    paged: bool,
    octets: &[u8],
    arrival: Result<Arrival, Refusal>,
    output: &mut [u8],
) -> Done
    requires sound_log { SoundLog n kind entries.old count }
    requires output_len { length output.old ≡ most_octets }
    requires fitting { Fitting kind octets.now arrival }
    ensures output_after { result_of (told_answer result.answer) (entries_from entries.new 0 result.count) output.new ≡ log_taken n kind (entries_from entries.old 0 count) output.old paged octets.now (told_arrival arrival) }
    ensures fact { Stays (only_reads (told_arrival arrival) (told_answer result.answer)) entries.old entries.new }
{
    let brought = match arrival {
        Err(why) => {
            return Done {
                answer: Err(why),
                count,
            };
        }
        Ok(brought) => brought,
    };
    match brought {
        Arrival::Single { start } => {
            let part = arrival::own_octets(octets, start);
            let size = hand_out(kind, paged, 1, part, output);
            Done {
                answer: handed(size),
                count,
            }
        }
        Arrival::Part {
            key,
            total,
            number,
            start,
        } => {
            let part = arrival::own_octets(octets, start);
            take_part(n, kind, entries, count, key, total, number, part, output)
        }
    }
}
