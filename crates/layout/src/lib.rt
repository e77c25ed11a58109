#![tactic(auto)]
// The record of unfinished series in place, as octets of a state that the caller lends (`specs/Layout.antt` has their places): what its slots
// say is read where it is, and changed there.
pub mod find;
pub mod known;
pub mod read;
pub mod write;

ghost use Rattle.std.specs.Prelude.{◌≡◌, ◌<◌, get_or, set};
ghost use Rattle.layout.specs.Blocks.{slot_size};
ghost use Rattle.layout.specs.Layout.{slot_block};
ghost use Rattle.layout.specs.Changes.{Stored};

use types::{SLOTS, STATE_OCTETS};

// The octets before the first slot.
pub(crate) const HEAD: usize = 3;

// The octets of a slot, and where its fields are among them.
pub(crate) const BLOCK: usize = 46;

// Those behind the rank.
pub(crate) const BEHIND: usize = BLOCK - 1;

pub(crate) const RANK: usize = 0;

pub(crate) const BEATS: usize = 1;

pub(crate) const SENDER: usize = 2;

pub(crate) const SENDER_LOW: usize = 4;

pub(crate) const WIDTH: usize = 6;

pub(crate) const REFERENCE: usize = 7;

pub(crate) const SERIAL: usize = 9;

pub(crate) const IDENTIFIER: usize = 11;

pub(crate) const TOTAL: usize = 13;

pub(crate) const LENGTHS: usize = 14;

pub(crate) const MARKS: usize = 30;

// Octet p of slot i, and 0 past the last slot.
pub(crate) fn octet_at(state: &[u8; STATE_OCTETS], i: usize, p: usize) -> u8
    requires { p < slot_size }
    ensures { result ≡ get_or (slot_block i state.now) p 0 }
{
    if i < SLOTS {
        return state[HEAD + BLOCK * i + p];
    }
    0
}

// Octet p of slot i becomes v; past the last slot nothing does.
pub(crate) fn set_octet(state: &mut [u8; STATE_OCTETS], i: usize, p: usize, v: u8)
    requires { p < slot_size }
    ensures { Stored state.old state.new i (set (slot_block i state.old) p v) }
{
    if i < SLOTS {
        state[HEAD + BLOCK * i + p] = v;
    }
}
