// The order of recency (01, "Series"): a slot comes to the front, or is freed, and the others keep their order. The loop goes over the
// record's own slots by index.
ghost use Rattle.std.specs.Prelude.{◌≡◌};
ghost use Rattle.slots.specs.Slots.{at_front};
ghost use Rattle.slots.specs.Order.{rank_after, replaced};

use crate::find::slots_in;
use types::{Record, Slot};

// Rank q after a slot of rank r has come to the front, or was freed. No rank is counted past 255.
pub fn rank_after(front: bool, r: u8, q: u8) -> u8
    ensures { result ≡ rank_after front r q }
{
    if front & (q < 255) & ((q != 0) & ((r == 0) | (q < r))) {
        return q + 1;
    }
    if !front & (r < q) {
        return q - 1;
    }
    q
}

// The slot as it is when it has come to the front: the most recent, and no beat has come since.
pub fn at_front(x: Slot) -> Slot
    ensures { result ≡ at_front x }
{
    Slot {
        rank: 1,
        beats: 0,
        ..x
    }
}

// The record with x in slot i, and the other slots at the ranks that they have once slot i has come to the front, or was freed. If there
// is no slot i, the record as it is. There is one return: with two the record would be copied once more.
pub fn replaced(mut state: Record, i: usize, front: bool, x: Slot) -> Record
    ensures { result ≡ replaced front state i x }
{
    let n = slots_in(state);
    if i < n {
        let r = state.slots[i].rank;
        for j in 0..n {
            let y = state.slots[j];
            state.slots[j] = Slot {
                rank: rank_after(front, r, y.rank),
                ..y
            };
        }
        state.slots[i] = x;
    }
    state
}
