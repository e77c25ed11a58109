// What a part of a series does to the state: decided first, then done. What is refused writes nothing.
ghost use Rattle.std.specs.Prelude.{◌≡◌, true, false, ◌≤◌, length};
ghost use Rattle.octets.specs.Octets.{placed};
ghost use Rattle.arrival.specs.Message.{most_parts};
ghost use Rattle.joined.specs.Fronts.{packet_in, length_in, output_with};
ghost use Rattle.slots.specs.Slots.{opened, free_slot, at_front, with_part, slots_in};
ghost use Rattle.slots.specs.Order.{replaced};
ghost use Rattle.layout.specs.Layout.{state_record, known};
ghost use Rattle.layout.specs.Changes.{state_slot, Became};
ghost use Rattle.cells.specs.Cells.{cell_at, joined_octets};
ghost use Rattle.cells.specs.Handing.{Place, Reaches};
ghost use Rattle.series.specs.Taking as rule;
ghost use Rattle.series.specs.Taking.{told_answer, after};
ghost use Rattle.series.specs.Deciding.{all_with, told_step, step_at, any_key_of, answer_of, Room, Whole, Holds, Seated};

use layout::read::{kind_in, length_at, lengths_at, mark_at, total_at};
use series::take::{Step, handed};
use slots::find::Seat;
use types::{Answer, Key, Kind, PARTS, Refusal, STATE_OCTETS};

// ---- deciding
// Whether each part of slot i up to the total is marked, or has the number. All sixteen are looked at, at once.
fn all_with(state: &[u8; STATE_OCTETS], i: usize, total: u8, number: u8) -> bool
    requires { total ≤ most_parts }
    ensures { result ≡ all_with (state_slot state.now i).held total number }
{
    let mut missing = 0;
    for j in 0..PARTS {
        let h = mark_at(state, i, j);
        let k = j as u8;
        let lacks = (k < total) & !((k + 1 == number) | h);
        missing |= u8::from(lacks);
    }
    missing == 0
}

// What part `number` of `total` does to the series in slot i: 7 comes before 8. A part that is held is compared by its octets.
fn decide(
    state: &[u8; STATE_OCTETS],
    i: usize,
    total: u8,
    number: usize,
    cells: &[u8],
    part: &[u8],
) -> Result<Step, Refusal>
    requires place { Place i number }
    requires i_bound { (state_slot state.now i).total ≤ most_parts }
    requires reaches { Reaches i cells.now }
    ensures { told_step i (state_slot state.now i) result ≡ step_at cells.now total number part.now i (state_slot state.now i) }
{
    let j = number - 1;
    if total_at(state, i) != total {
        return Err(Refusal::OtherTotal);
    }
    if mark_at(state, i, j) {
        if cells::same_part(cells, i, number, length_at(state, i, j), part) {
            return Ok(Step::Repeats);
        }
        return Err(Refusal::OtherOctets);
    }
    if all_with(state, i, total, number as u8) {
        return Ok(Step::Finishes);
    }
    Ok(Step::Keeps)
}

// ---- acting
// Part `number` is written to its cell and to slot i, which becomes the most recent.
fn keep(state: &mut [u8; STATE_OCTETS], i: usize, number: usize, part: &[u8], cells: &mut [u8])
    requires { Room i number part.now cells.old }
    ensures became { Became state.old state.new (replaced true (state_record state.old) i (at_front (with_part (state_slot state.old i) number (length part.now)))) }
    ensures cells_after { cells.new ≡ placed cells.old (cell_at i number) part.now }
{
    cells::store(cells, i, number, part);
    moves::keep(state, i, number, part.len() as u8);
}

// The same, if the part opens the series with that key.
fn open(
    state: &mut [u8; STATE_OCTETS],
    i: usize,
    key: Key,
    total: u8,
    number: usize,
    part: &[u8],
    cells: &mut [u8],
)
    requires { Room i number part.now cells.old }
    ensures became { Became state.old state.new (replaced true (state_record state.old) i (at_front (with_part (opened key total) number (length part.now)))) }
    ensures cells_after { cells.new ≡ placed cells.old (cell_at i number) part.now }
{
    cells::store(cells, i, number, part);
    moves::keep_new(state, i, key, total, number, part.len() as u8);
}

// The series in slot i, complete with the part that arrives, is handed out and freed; it is freed too if its parts join to no packet.
fn finish<'a>(
    state: &mut [u8; STATE_OCTETS],
    paged: bool,
    i: usize,
    number: usize,
    cells: &'a [u8],
    part: &'a [u8],
    out: &mut [u8],
) -> Result<Answer, Refusal>
    requires room { Room i number part.now cells.now }
    requires whole { Whole (state_slot state.old i) i number part.now cells.now out.old }
    ensures result_value { told_answer result ≡ answer_of (length_in (packet_in (state_record state.old).kind paged (state_slot state.old i).total (joined_octets cells.now (state_slot state.old i) i number part.now))) }
    ensures out_after { out.new ≡ output_with (packet_in (state_record state.old).kind paged (state_slot state.old i).total (joined_octets cells.now (state_slot state.old i) i number part.now)) out.old }
    ensures became { Became state.old state.new (replaced false (state_record state.old) i free_slot) }
{
    let kind = kind_in(state);
    let total = usize::from(total_at(state, i));
    let size = cells::packets::hand_out(
        kind,
        paged,
        cells,
        lengths_at(state, i),
        total,
        i,
        number,
        part,
        out,
    );
    moves::free(state, i);
    handed(size)
}

// A part of the series in slot i arrives.
fn take_more(
    state: &mut [u8; STATE_OCTETS],
    paged: bool,
    i: usize,
    total: u8,
    number: usize,
    part: &[u8],
    cells: &mut [u8],
    out: &mut [u8],
) -> Result<Answer, Refusal>
    requires state_value { known state.old ≡ true }
    requires holds { Holds (state_record state.old) (state_record state.old).kind i (state_slot state.old i) }
    requires room { Room i number part.now cells.old }
    requires whole { Whole (state_slot state.old i) i number part.now cells.old out.old }
    ensures state_after { known state.new ≡ true }
    ensures out_after { after (told_answer result) (state_record state.new) cells.new out.new ≡ rule.acted (slots_in (state_record state.old)) (rule.state (state_record state.old) cells.old out.old) (any_key_of paged) total number part.now (step_at cells.old total number part.now i (state_slot state.old i)) }
{
    match decide(state, i, total, number, cells, part)? {
        Step::Repeats => {
            moves::to_front(state, i);
            Ok(Answer::HeldAlready { slot: i })
        }
        Step::Keeps => {
            keep(state, i, number, part, cells);
            Ok(Answer::Kept {
                slot: i,
                displaced: false,
            })
        }
        Step::Finishes => finish(state, paged, i, number, cells, part, out),
    }
}

// A part of the series with that key arrives: of one that is held in slot o, or the first of a new one.
pub(crate) fn take_part(
    state: &mut [u8; STATE_OCTETS],
    key: Key,
    o: Seat,
    total: u8,
    number: usize,
    part: &[u8],
    cells: &mut [u8],
    out: &mut [u8],
) -> Result<Answer, Refusal>
    requires state_value { known state.old ≡ true }
    requires seated { Seated (state_record state.old) (state_record state.old).kind key o (state_slot state.old o.slot) }
    requires room { Room o.slot number part.now cells.old }
    requires whole { o.held ≡ true → Whole (state_slot state.old o.slot) o.slot number part.now cells.old out.old }
    ensures state_after { known state.new ≡ true }
    ensures out_after { after (told_answer result) (state_record state.new) cells.new out.new ≡ rule.take_part (slots_in (state_record state.old)) (rule.state (state_record state.old) cells.old out.old) key total number part.now }
{
    let i = o.slot;
    if o.held {
        return take_more(state, key.width == 0, i, total, number, part, cells, out);
    }
    open(state, i, key, total, number, part, cells);
    Ok(Answer::Kept {
        slot: i,
        displaced: o.displaced,
    })
}

// A single message or page is handed out; the state stays as it is.
pub(crate) fn take_single(
    kind: Kind,
    paged: bool,
    part: &[u8],
    out: &mut [u8],
) -> Result<Answer, Refusal>
    requires { length part.now ≤ length out.old }
    ensures result_value { told_answer result ≡ answer_of (length_in (packet_in kind paged 1 part.now)) }
    ensures out_after { out.new ≡ output_with (packet_in kind paged 1 part.now) out.old }
{
    handed(joined::hand_out(kind, paged, part, out))
}
