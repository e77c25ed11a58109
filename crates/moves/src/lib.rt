#![tactic(auto)]
// The order of recency in place (01, "Series"): a slot of a state comes to the front, or is freed, and the others keep their order. Each call
// makes of the record that the state holds what `slots::order::replaced` makes of a record. If there is no slot i, nothing is changed.
ghost use Rattle.std.specs.Prelude.{true, false};
ghost use Rattle.slots.specs.Slots.{opened, free_slot, at_front, with_slots, slots_in};
ghost use Rattle.slots.specs.Found.{with_part_in};
ghost use Rattle.slots.specs.Order.{rank_after, first_ranked, replaced};
ghost use Rattle.layout.specs.Layout.{state_record};
ghost use Rattle.layout.specs.Changes.{state_slot, Became};

use layout::read::{rank_at, slots_in};
use layout::write::{clear, open, put_part, set_front, set_rank};
use slots::order::rank_after;
use types::{Key, STATE_OCTETS};

// Every slot is at its rank once slot i has come to the front, or was freed.
fn rerank(state: &mut [u8; STATE_OCTETS], i: usize, front: bool)
    ensures { Became state.old state.new (with_slots (state_record state.old) (first_ranked (rank_after front (state_slot state.old i).rank) (slots_in (state_record state.old)) (state_record state.old).slots)) }
{
    let n = slots_in(state);
    let r = rank_at(state, i);
    for j in 0..n {
        let q = rank_at(state, j);
        set_rank(state, j, rank_after(front, r, q));
    }
}

// Slot i comes to the front.
pub fn to_front(state: &mut [u8; STATE_OCTETS], i: usize)
    ensures { Became state.old state.new (replaced true (state_record state.old) i (at_front (state_slot state.old i))) }
{
    let n = slots_in(state);
    if n <= i {
        return;
    }
    rerank(state, i, true);
    set_front(state, i);
}

// Slot i has part `number`, of m octets, and comes to the front.
pub fn keep(state: &mut [u8; STATE_OCTETS], i: usize, number: usize, m: u8)
    ensures { Became state.old state.new (replaced true (state_record state.old) i (at_front (with_part_in (state_slot state.old i) number m))) }
{
    let n = slots_in(state);
    if n <= i {
        return;
    }
    rerank(state, i, true);
    put_part(state, i, number, m);
    set_front(state, i);
}

// A new series takes slot i, with its part `number`, of m octets, and comes to the front.
pub fn keep_new(state: &mut [u8; STATE_OCTETS], i: usize, key: Key, total: u8, number: usize, m: u8)
    ensures { Became state.old state.new (replaced true (state_record state.old) i (at_front (with_part_in (opened key total) number m))) }
{
    let n = slots_in(state);
    if n <= i {
        return;
    }
    rerank(state, i, true);
    open(state, i, key, total);
    put_part(state, i, number, m);
    set_front(state, i);
}

// Slot i is freed; the others keep their order, without a gap.
pub fn free(state: &mut [u8; STATE_OCTETS], i: usize)
    ensures { Became state.old state.new (replaced false (state_record state.old) i free_slot) }
{
    let n = slots_in(state);
    if n <= i {
        return;
    }
    rerank(state, i, false);
    clear(state, i);
}
