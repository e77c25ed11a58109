// Taking a message or a page (01, "Series" and "Numbers of refusal"): 1, then what reading refuses, then 7, 8, 9. What is due is decided
// before anything is written.
ghost use Rattle.std.specs.Prelude.{◌≡◌, true, false, not, ◌||◌, ◌≤◌, ◌<◌, length, eqb};
ghost use Rattle.octets.specs.Octets.{placed};
ghost use Rattle.std.specs.declared.result.Result.TheVariants.{Ok};
ghost use Rattle.types.specs.declared.Answer.TheVariants.{Kept};
ghost use Rattle.packet.specs.Packets.{most_octets};
ghost use Rattle.arrival.specs.Arrivals.{told_arrival};
ghost use Rattle.arrival.specs.Message.{most_parts};
ghost use Rattle.joined.specs.Fronts.{packet_in, told_size, length_in, output_with};
ghost use Rattle.slots.specs.Slots.{most_slots, slot_at, with_part, slots_in};
ghost use Rattle.formed.specs.Formed.{record_formed};
ghost use Rattle.cells.specs.Cells.{cells_size, cell_at, joined_octets};
ghost use Rattle.cells.specs.Handing.{Place, Reaches};
ghost use Rattle.series.specs.Taking as rule;
ghost use Rattle.series.specs.Taking.{told_answer, after};
ghost use Rattle.series.specs.Deciding.{all_with, told_step, step_at, any_key_of, answer_of, Room, Whole, fronted, emptied, Holds, Seated, Makes, Fitting, taken_where_fit};

use formed::record_formed;
use slots::find::Seat;
use slots::{find, order};
use types::{
    Answer, Arrival, Key, Kind, PACKET_OCTETS, PARTS, Record, Refusal, SLOT_OCTETS, Slot, Taken,
};

// What a part of a series that is there does.
#[derive(Clone, Copy)]
pub enum Step {
    Repeats,
    Keeps,
    Finishes,
}

// ---- deciding
// Whether each part up to the total is marked, or has the number. All sixteen are looked at, at once.
fn all_with(held: &[bool; PARTS], total: u8, number: u8) -> bool
    requires { total ≤ most_parts }
    ensures { result ≡ all_with held.now total number }
{
    let mut missing = 0;
    for i in 0..PARTS {
        let k = i as u8;
        let lacks = (k < total) & !((k + 1 == number) | held[i]);
        missing |= lacks as u8;
    }
    missing == 0
}

// What part `number` of `total` does to the series x in slot i: 7 comes before 8. A part that is held is compared by its octets. What belongs to a
// part is passed on as it is, here and below: `cells::packets::hand_out` takes it so, and most functions need only some of it.
fn decide(
    x: Slot,
    i: usize,
    total: u8,
    number: usize,
    cells: &[u8],
    part: &[u8],
) -> Result<Step, Refusal>
    requires place { Place i number }
    requires total_le_most_parts { x.total ≤ most_parts }
    requires reaches { Reaches i cells.now }
    ensures { told_step i x result ≡ step_at cells.now total number part.now i x }
{
    let j = number - 1;
    if x.total != total {
        return Err(Refusal::OtherTotal);
    }
    if x.held[j] {
        if cells::same_part(cells, i, number, x.lengths[j], part) {
            return Ok(Step::Repeats);
        }
        return Err(Refusal::OtherOctets);
    }
    if all_with(&x.held, total, number as u8) {
        return Ok(Step::Finishes);
    }
    Ok(Step::Keeps)
}

// ---- acting
// What is answered, and what becomes of the record: it stays as it is, or a slot moves, to the front or out, and is `entry` then.
#[derive(Clone, Copy)]
pub(crate) struct Change {
    pub answer: Result<Answer, Refusal>,
    pub moves: bool,
    pub front: bool,
    pub slot: usize,
    pub entry: Slot,
}

// The record stays as it is.
fn unchanged(answer: Result<Answer, Refusal>) -> Change
    ensures { (result.answer ≡ answer) × (result.moves ≡ false) }
{
    Change {
        answer,
        moves: false,
        front: false,
        slot: 0,
        entry: find::free_slot(),
    }
}

// Slot i comes to the front, as x.
fn to_front(answer: Result<Answer, Refusal>, i: usize, x: Slot) -> Change
    ensures { result ≡ fronted answer i x }
{
    Change {
        answer,
        moves: true,
        front: true,
        slot: i,
        entry: order::at_front(x),
    }
}

// Part `number` is written to its cell, and slot i, which is x without it, becomes the most recent.
fn keep(i: usize, displaced: bool, x: Slot, number: usize, part: &[u8], cells: &mut [u8]) -> Change
    requires { Room i number part.now cells.old }
    ensures value { result ≡ fronted (Ok (Kept i displaced)) i (with_part x number (length part.now)) }
    ensures cells_after { cells.new ≡ placed cells.old (cell_at i number) part.now }
{
    cells::store(cells, i, number, part);
    let n = part.len() as u8;
    let answer = Ok(Answer::Kept { slot: i, displaced });
    to_front(answer, i, find::with_part(x, number, n))
}

// What is answered if a packet of that length was handed out, and if there was none.
pub fn handed(size: Option<usize>) -> Result<Answer, Refusal>
    ensures { told_answer result ≡ answer_of (told_size size) }
{
    let length = size.ok_or(Refusal::MalformedPacket)?;
    Ok(Answer::Packet { length })
}

// The series x in slot i, complete with the part that arrives, is handed out and freed; it is freed too if its parts join to no packet.
fn finish<'a>(
    kind: Kind,
    paged: bool,
    i: usize,
    x: Slot,
    number: usize,
    cells: &'a [u8],
    part: &'a [u8],
    out: &mut [u8],
) -> Change
    requires room { Room i number part.now cells.now }
    requires whole { Whole x i number part.now cells.now out.old }
    ensures answer_value { (told_answer result.answer ≡ answer_of (length_in (packet_in kind paged x.total (joined_octets cells.now x i number part.now)))) × (result ≡ emptied result.answer i) }
    ensures out_after { out.new ≡ output_with (packet_in kind paged x.total (joined_octets cells.now x i number part.now)) out.old }
{
    let total = octets::wide(x.total);
    let size = cells::packets::hand_out(
        kind, paged, cells, &x.lengths, total, i, number, part, out,
    );
    Change {
        answer: handed(size),
        moves: true,
        front: false,
        slot: i,
        entry: find::free_slot(),
    }
}

// A part of the series x in slot i arrives: what becomes of every record in which x is in slot i.
fn take_more(
    kind: Kind,
    paged: bool,
    i: usize,
    x: Slot,
    total: u8,
    number: usize,
    part: &[u8],
    cells: &mut [u8],
    out: &mut [u8],
) -> Change
    requires room { Room i number part.now cells.old }
    requires whole { Whole x i number part.now cells.old out.old }
    ensures { Makes (λ s. Holds s kind i x) result cells.new out.new (λ s. rule.acted (slots_in s) (rule.state s cells.old out.old) (any_key_of paged) total number part.now (step_at cells.old total number part.now i x)) }
{
    match decide(x, i, total, number, cells, part) {
        Err(why) => unchanged(Err(why)),
        Ok(Step::Repeats) => to_front(Ok(Answer::HeldAlready { slot: i }), i, x),
        Ok(Step::Keeps) => keep(i, false, x, number, part, cells),
        Ok(Step::Finishes) => finish(kind, paged, i, x, number, cells, part, out),
    }
}

// A part of the series with that key arrives: of one that is held in its slot as x, or the first of a new one.
fn take_part(
    kind: Kind,
    key: Key,
    o: Seat,
    x: Slot,
    total: u8,
    number: usize,
    part: &[u8],
    cells: &mut [u8],
    out: &mut [u8],
) -> Change
    requires room { Room o.slot number part.now cells.old }
    requires whole { o.held ≡ true → Whole x o.slot number part.now cells.old out.old }
    ensures { Makes (λ s. Seated s kind key o x) result cells.new out.new (λ s. rule.take_part (slots_in s) (rule.state s cells.old out.old) key total number part.now) }
{
    let i = o.slot;
    if o.held {
        return take_more(kind, key.width == 0, i, x, total, number, part, cells, out);
    }
    keep(
        i,
        o.displaced,
        find::opened(key, total),
        number,
        part,
        cells,
    )
}

// A single message or page is handed out; the record stays as it is.
fn take_single(kind: Kind, paged: bool, part: &[u8], out: &mut [u8]) -> Change
    requires { length part.now ≤ length out.old }
    ensures answer_value { (told_answer result.answer ≡ answer_of (length_in (packet_in kind paged 1 part.now))) × (result.moves ≡ false) }
    ensures out_after { out.new ≡ output_with (packet_in kind paged 1 part.now) out.old }
{
    unchanged(handed(joined::hand_out(kind, paged, part, out)))
}

// Whether a buffer lent is of another length than it must be, the cells by the record's number of slots, or the record is not well formed.
fn unfit(formed: bool, count: u8, cells: usize, out: usize) -> bool
    ensures { result ≡ (not (eqb cells (cells_size count)) || not (eqb out most_octets) || not formed) }
{
    (cells != octets::wide(count) * SLOT_OCTETS) | (out != PACKET_OCTETS) | !formed
}

// Slot i of the record. It is read by a number that is known when this is compiled: by another the record would be copied first.
fn slot_of(state: Record, i: usize) -> Slot
    requires { i < most_slots }
    ensures { result ≡ slot_at state.slots i }
{
    match i {
        0 => state.slots[0],
        1 => state.slots[1],
        2 => state.slots[2],
        3 => state.slots[3],
        _ => state.slots[4],
    }
}

// The answer and the record, as they are handed back.
fn handed_back(answer: Result<Answer, Refusal>, left: Record) -> Taken
    ensures { (result.answer ≡ answer) × (result.record ≡ left) }
{
    Taken {
        answer,
        record: left,
    }
}

// Takes what reading the octets of a message or a page gave, if buffers and record are as they must be. Whether they are is tested by those who
// call this: the test reads the record where it is, and here it would be given a copy.
fn take_arrival(
    state: Record,
    unfit: bool,
    paged: bool,
    octets: &[u8],
    arrival: Result<Arrival, Refusal>,
    cells: &mut [u8],
    out: &mut [u8],
) -> Taken
    requires unfit_value { unfit ≡ (not (eqb (length cells.old) (cells_size state.count)) || not (eqb (length out.old) most_octets) || not (record_formed state.count state)) }
    requires fitting { Fitting state.kind octets.now arrival }
    ensures { after (told_answer result.answer) result.record cells.new out.new ≡ taken_where_fit state.count (rule.state state cells.old out.old) paged octets.now (told_arrival arrival) }
{
    if unfit {
        return handed_back(Err(Refusal::BufferOrRecord), state);
    }
    let brought = match arrival {
        Err(why) => return handed_back(Err(why), state),
        Ok(brought) => brought,
    };
    let kind = state.kind;
    let c = match brought {
        Arrival::Single { start } => {
            take_single(kind, paged, arrival::own_octets(octets, start), out)
        }
        Arrival::Part {
            key,
            total,
            number,
            start,
        } => {
            let part = arrival::own_octets(octets, start);
            let o = find::seat_of(state, key);
            let i = o.slot;
            let x = slot_of(state, i);
            take_part(kind, key, o, x, total, number as usize, part, cells, out)
        }
    };
    if c.moves {
        return handed_back(c.answer, order::replaced(state, c.slot, c.front, c.entry));
    }
    handed_back(c.answer, state)
}

// ---- taking
// Takes a message from `sender`: a part is kept, a packet that is complete is handed out, and whatever is wrong is refused.
pub fn take_message(
    state: Record,
    sender: u32,
    ud: &[u8],
    cells: &mut [u8],
    out: &mut [u8],
) -> Taken
    ensures { after (told_answer result.answer) result.record cells.new out.new ≡ rule.take_message state.count (rule.state state cells.old out.old) sender ud.now }
{
    let kind = state.kind;
    let formed = record_formed(state);
    let bad = unfit(formed, state.count, cells.len(), out.len());
    let arrival = arrival::message::read_message(kind, sender, ud);
    take_arrival(state, bad, false, ud, arrival, cells, out)
}

// Takes a page in the same way.
pub fn take_page(state: Record, page: &[u8], cells: &mut [u8], out: &mut [u8]) -> Taken
    ensures { after (told_answer result.answer) result.record cells.new out.new ≡ rule.take_page state.count (rule.state state cells.old out.old) page.now }
{
    let kind = state.kind;
    let formed = record_formed(state);
    let bad = unfit(formed, state.count, cells.len(), out.len());
    let arrival = arrival::page::read_page(kind, page);
    take_arrival(state, bad, true, page, arrival, cells, out)
}
