// The beat on a state in place (02 [6]): each series is one beat older, and those that have reached the limit are dropped.
ghost use Rattle.std.specs.Prelude.{◌≡◌, true, ◌<◌};
ghost use Rattle.slots.specs.Slots.{with_slots};
ghost use Rattle.layout.specs.Layout.{state_record, known, on_state};
ghost use Rattle.layout.specs.Changes.{state_slot, with_slot, Became};
ghost use Rattle.beats.specs.Beats.{raised, reached, after_beat, slots_after_beat, dropped_by, told_beating};
ghost use Rattle.sound.specs.Card.{beat_in};

use crate::state_formed;
use layout::known::exact;
use layout::read::{beats_at, rank_at};
use layout::write::{clear, set_beats};
use types::{Refusal, SLOTS, STATE_OCTETS};

// Whether one beat more drops the series of slot i. One less than the limit is looked at, so that no count is raised past an octet.
fn is_dead(state: &[u8; STATE_OCTETS], i: usize, limit: u8) -> bool
    requires { 0 < limit }
    ensures { result ≡ reached limit (raised (state_slot state.now i)) }
{
    let last = limit - 1;
    let r = rank_at(state, i);
    let n = beats_at(state, i);
    (r != 0) & (last <= n)
}

// A beat on slot i: it is one beat older, and free if its series is dropped, which is what is answered. A free slot stays as it is, and no rank
// changes: what is dropped is less recent than all that stays.
fn beat_slot(state: &mut [u8; STATE_OCTETS], i: usize, limit: u8) -> bool
    requires { 0 < limit }
    ensures value { result ≡ reached limit (raised (state_slot state.old i)) }
    ensures became { Became state.old state.new (with_slot state.old i (after_beat limit (state_slot state.old i))) }
{
    if is_dead(state, i, limit) {
        clear(state, i);
        return true;
    }
    if rank_at(state, i) != 0 {
        let n = beats_at(state, i);
        set_beats(state, i, n + 1);
    }
    false
}

// A beat on each slot, and how many series it dropped.
fn beat_slots(state: &mut [u8; STATE_OCTETS], limit: u8) -> u8
    requires limit_nonzero { 0 < limit }
    requires state_value { known state.old ≡ true }
    ensures value { result ≡ dropped_by limit (state_record state.old).slots }
    ensures state_after { state_record state.new ≡ with_slots (state_record state.old) (slots_after_beat limit (state_record state.old).slots) }
    ensures state_after_2 { known state.new ≡ true }
{
    let mut dropped = 0;
    for i in 0..SLOTS {
        dropped += u8::from(beat_slot(state, i, limit));
    }
    dropped
}

// A beat on a state: every series is one beat older, and each that has reached the limit is dropped. A refusal leaves every octet as it was.
pub fn beat(state: &mut [u8; STATE_OCTETS], limit: u8) -> Result<u8, Refusal>
    ensures { on_state (told_beating result) state.new ≡ beat_in state.old limit }
{
    exact(state);
    if !state_formed(state) {
        return Err(Refusal::BufferOrRecord);
    }
    if limit == 0 {
        return Err(Refusal::BeatLimit);
    }
    let dropped = beat_slots(state, limit);
    exact(state);
    Ok(dropped)
}
