#![tactic(auto)]
// Taking a message or a page on a state that the caller lends as octets: the rules of `series`, of the record that the octets hold. Nothing of the
// state is copied, and a refusal writes nothing to it.
mod part;

ghost use Rattle.std.specs.Prelude.{◌≡◌, true, false, not, ◌&&◌, ◌||◌, eqb};
ghost use Rattle.packet.specs.Packets.{most_octets};
ghost use Rattle.arrival.specs.Arrivals.{told_arrival};
ghost use Rattle.formed.specs.Formed.{record_formed};
ghost use Rattle.layout.specs.Layout.{state_record, known};
ghost use Rattle.layout.specs.Changes.{Exact};
ghost use Rattle.cells.specs.Cells.{cells_size};
ghost use Rattle.series.specs.Taking as rule;
ghost use Rattle.series.specs.Taking.{told_answer, after};
ghost use Rattle.series.specs.Calls as input;
ghost use Rattle.series.specs.Deciding.{Fitting};
ghost use Rattle.card.specs.Card.{taken_state, take_in};

use layout::find;
use layout::known::exact;
use layout::read::{count_in, kind_in};
use types::{Answer, Arrival, PACKET_OCTETS, Refusal, SLOT_OCTETS, STATE_OCTETS};

// Whether a buffer lent is of another length than it must be, the cells by the record's number of slots, or the state holds no well-formed record.
fn unfit(state: &[u8; STATE_OCTETS], cells: usize, out: usize) -> bool
    ensures value { result ≡ (not (eqb cells (cells_size (state_record state.now).count)) || not (eqb out most_octets) || not (known state.now && record_formed (state_record state.now).count (state_record state.now))) }
    ensures exact { Exact state.now }
{
    exact(state);
    let formed = sound::state_formed(state);
    let n = usize::from(count_in(state));
    (cells != n * SLOT_OCTETS) | (out != PACKET_OCTETS) | !formed
}

// Takes what reading the octets of a message or a page gave, once buffers and state are found to be as they must be.
fn take_arrival(
    state: &mut [u8; STATE_OCTETS],
    paged: bool,
    octets: &[u8],
    arrival: Result<Arrival, Refusal>,
    cells: &mut [u8],
    out: &mut [u8],
) -> Result<Answer, Refusal>
    requires state_value { known state.old ≡ true }
    requires out_value { rule.unfit (state_record state.old).count (rule.state (state_record state.old) cells.old out.old) ≡ false }
    requires fitting { Fitting (state_record state.old).kind octets.now arrival }
    ensures state_after { known state.new ≡ true }
    ensures out_after { after (told_answer result) (state_record state.new) cells.new out.new ≡ rule.taken (state_record state.old).count (rule.state (state_record state.old) cells.old out.old) paged octets.now (told_arrival arrival) }
{
    match arrival? {
        Arrival::Single { start } => part::take_single(
            kind_in(state),
            paged,
            arrival::own_octets(octets, start),
            out,
        ),
        Arrival::Part {
            key,
            total,
            number,
            start,
        } => {
            let o = find::seat_of(state, key);
            let own = arrival::own_octets(octets, start);
            part::take_part(state, key, o, total, number as usize, own, cells, out)
        }
    }
}

// ---- taking
// Takes a message from `sender`: a part is kept, a packet that is complete is handed out, and whatever is wrong is refused.
pub fn take_message(
    state: &mut [u8; STATE_OCTETS],
    sender: u32,
    ud: &[u8],
    cells: &mut [u8],
    out: &mut [u8],
) -> Result<Answer, Refusal>
    ensures { taken_state (told_answer result) state.new cells.new out.new ≡ take_in state.old cells.old out.old (input.message sender ud.now) }
{
    if unfit(state, cells.len(), out.len()) {
        return Err(Refusal::BufferOrRecord);
    }
    let arrival = arrival::message::read_message(kind_in(state), sender, ud);
    let answer = take_arrival(state, false, ud, arrival, cells, out);
    exact(state);
    answer
}

// Takes a page in the same way.
pub fn take_page(
    state: &mut [u8; STATE_OCTETS],
    page: &[u8],
    cells: &mut [u8],
    out: &mut [u8],
) -> Result<Answer, Refusal>
    ensures { taken_state (told_answer result) state.new cells.new out.new ≡ take_in state.old cells.old out.old (input.page page.now) }
{
    if unfit(state, cells.len(), out.len()) {
        return Err(Refusal::BufferOrRecord);
    }
    let arrival = arrival::page::read_page(kind_in(state), page);
    let answer = take_arrival(state, true, page, arrival, cells, out);
    exact(state);
    answer
}
