#![tactic(auto)]
// The beat (02 [6]): a series that nothing has touched for as many beats as a limit says is given up.
ghost use Rattle.std.specs.Prelude.{◌≡◌, ◌<◌};
ghost use Rattle.beats.specs.Beats as rule;
ghost use Rattle.beats.specs.Beats.{raised, reached, after_beat, beaten, told_beating};

use formed::record_formed;
use slots::find::free_slot;
use types::{Beaten, Record, Refusal, SLOTS, Slot};

// Whether one beat more drops the series of the slot. One less than the limit is looked at, so that no count is raised past an octet.
fn is_dead(x: Slot, limit: u8) -> bool
    requires { 0 < limit }
    ensures { result ≡ reached limit (raised x) }
{
    let last = limit - 1;
    (x.rank != 0) & (last <= x.beats)
}

// The slot after a beat: one beat older, free if its series is dropped. A free slot stays as it is.
fn after_beat(x: Slot, limit: u8) -> Slot
    requires { 0 < limit }
    ensures { result ≡ after_beat limit x }
{
    if is_dead(x, limit) {
        return free_slot();
    }
    if x.rank == 0 {
        return x;
    }
    Slot {
        beats: x.beats + 1,
        ..x
    }
}

// A beat: every series is one beat older, and each that has reached the limit is dropped.
pub fn beat(mut state: Record, limit: u8) -> Beaten
    ensures { beaten (told_beating result.answer) result.record ≡ rule.beat state.count state limit }
{
    if !record_formed(state) {
        return Beaten {
            answer: Err(Refusal::BufferOrRecord),
            record: state,
        };
    }
    if limit == 0 {
        return Beaten {
            answer: Err(Refusal::BeatLimit),
            record: state,
        };
    }
    let mut dropped = 0;
    for i in 0..SLOTS {
        let x = state.slots[i];
        dropped += is_dead(x, limit) as u8;
        state.slots[i] = after_beat(x, limit);
    }
    Beaten {
        answer: Ok(dropped),
        record: state,
    }
}
