// The calls on a state, in place on the caller's octets.
ghost use Rattle.std.specs.Prelude.{◌≡◌, ◌&&◌};
ghost use Rattle.slots.specs.Slots.{default_slots};
ghost use Rattle.formed.specs.Formed.{record_formed};
ghost use Rattle.layout.specs.Layout.{kind_in, state_record, known, making_state};
ghost use Rattle.sound.specs.Card.{beat_in};
ghost use Rattle.series.specs.Calls as input;
ghost use Rattle.card.specs.Card.{take_in};
ghost use Rattle.heard.specs.Given.{octet_in};
ghost use Rattle.heard.specs.Heard.{heard_test, heard_made, heard_beaten, heard_state};

use heard::{hear, parts};
use types::STATE_OCTETS;

// Makes a state with no series and five slots.
#[unsafe(no_mangle)]
pub extern "C" fn skm_fresh(state: &mut [u8; STATE_OCTETS], kind: u32) -> u32
    ensures { (result, state.new) ≡ heard_made (making_state state.old default_slots (kind_in kind)) }
{
    let made = skelmarix::fresh_state(state, parts::kind_in(kind), 5);
    hear::making(made)
}

// The same with a number of slots; a number above 255 is refused as 0 is.
#[unsafe(no_mangle)]
pub extern "C" fn skm_fresh_with(state: &mut [u8; STATE_OCTETS], kind: u32, slots: u32) -> u32
    ensures { (result, state.new) ≡ heard_made (making_state state.old (octet_in slots) (kind_in kind)) }
{
    let made = skelmarix::fresh_state(state, parts::kind_in(kind), parts::octet_in(slots));
    hear::making(made)
}

// Whether the octets are a state, and the record that it holds is one that the library can have made: 0, or 1.
#[unsafe(no_mangle)]
pub extern "C" fn skm_state_formed(state: &[u8; STATE_OCTETS]) -> u32
    ensures { result ≡ heard_test 1 (known state.now && record_formed (state_record state.now).count (state_record state.now)) }
{
    let ok = skelmarix::state_formed(state);
    hear::test(ok, 1)
}

// Takes a message from `sender`.
#[unsafe(no_mangle)]
pub extern "C" fn skm_take_message(
    state: &mut [u8; STATE_OCTETS],
    sender: u32,
    ud: &[u8],
    cells: &mut [u8],
    out: &mut [u8],
    taken: &mut [usize; 4],
) -> u32
    ensures { ((result, taken.new), (state.new, (cells.new, out.new))) ≡ heard_state (take_in state.old cells.old out.old (input.message sender ud.now)) }
{
    let a = skelmarix::state_take_message(state, sender, ud, cells, out);
    hear::answer(a, taken)
}

// Takes a page in the same way.
#[unsafe(no_mangle)]
pub extern "C" fn skm_take_page(
    state: &mut [u8; STATE_OCTETS],
    page: &[u8],
    cells: &mut [u8],
    out: &mut [u8],
    taken: &mut [usize; 4],
) -> u32
    ensures { ((result, taken.new), (state.new, (cells.new, out.new))) ≡ heard_state (take_in state.old cells.old out.old (input.page page.now)) }
{
    let a = skelmarix::state_take_page(state, page, cells, out);
    hear::answer(a, taken)
}

// Makes a beat; a limit above 255 is refused as 0 is.
#[unsafe(no_mangle)]
pub extern "C" fn skm_beat(state: &mut [u8; STATE_OCTETS], limit: u32, dropped: &mut usize) -> u32
    ensures { ((result, dropped.new), state.new) ≡ heard_beaten (beat_in state.old (octet_in limit)) }
{
    let b = skelmarix::state_beat(state, parts::octet_in(limit));
    hear::beating(b, dropped)
}
