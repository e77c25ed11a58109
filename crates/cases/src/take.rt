// Messages and pages taken one after the other, from a fresh record.
use crate::answers;
use crate::answers::{Expected, NONE};
use skelmarix::{
    Answer, CELLS_OCTETS, Kind, PACKET_OCTETS, PAGE_OCTETS, Record, SLOT_OCTETS, Taken,
    first_octets, fresh_record, fresh_record_with, own_octets, put_octets, take_message, take_page,
};

// Who sends the messages.
const SENDER: u32 = 7;

// Takes a message, or a page.
fn take(paged: bool, state: Record, octets: &[u8], cells: &mut [u8], out: &mut [u8]) -> Taken {
    if paged {
        return take_page(state, octets, cells, out);
    }
    take_message(state, SENDER, octets, cells, out)
}

// The octets of the call that begins at `at`: those of a page, or 7 of a message; of the last call all that there are.
fn call(paged: bool, octets: &[u8], at: usize, last: usize) -> &[u8] {
    let rest = own_octets(octets, at);
    if at == last {
        return rest;
    }
    first_octets(rest, if paged { PAGE_OCTETS } else { 7 })
}

// Takes calls that are one behind the other, up to that which begins at `last`.
fn each(
    paged: bool,
    start: Taken,
    octets: &[u8],
    last: u8,
    cells: &mut [u8],
    out: &mut [u8],
) -> Taken {
    let last = usize::from(last);
    let size = if paged { PAGE_OCTETS } else { 7 };
    let mut taken = start;
    for at in (0..=last).step_by(size) {
        let octets = call(paged, octets, at, last);
        taken = take(paged, taken.record, octets, cells, out);
    }
    taken
}

// Before the first call.
fn start(state: Record) -> Taken {
    Taken {
        answer: Ok(Answer::Packet { length: 0 }),
        record: state,
    }
}

// The number of an example of calls that are one behind the other, on a fresh record, with buffers that hold anything but zeros.
fn example(paged: bool, octets: &[u8], last: u8, expected: Expected) -> u8 {
    let mut cells = [answers::BEFORE; CELLS_OCTETS];
    let mut out = [answers::BEFORE; PACKET_OCTETS];
    let fresh = start(fresh_record(Kind::Command));
    let taken = each(paged, fresh, octets, last, &mut cells, &mut out);
    answers::after(taken, &out, expected)
}

// The same of messages, on a record of three slots.
fn in_three(octets: &[u8], last: u8, expected: Expected) -> u8 {
    let mut cells = [answers::BEFORE; 3 * SLOT_OCTETS];
    let mut out = [answers::BEFORE; PACKET_OCTETS];
    let made = fresh_record_with(Kind::Command, 3);
    let state = made.record;
    let taken = each(false, start(state), octets, last, &mut cells, &mut out);
    answers::after(taken, &out, expected)
}

// One message.
pub fn message(ud: &[u8], expected: Expected) -> u8 {
    example(false, ud, 0, expected)
}

// One page with serial number 0000, identifier 1080, DCS 96 and this page parameter: M, then 00s.
pub fn page(parameter: u8, expected: Expected) -> u8 {
    let mut page = [0x00; PAGE_OCTETS];
    put_octets(&[0x00, 0x00, 0x10, 0x80, 0x96, parameter], &mut page, 0);
    put_octets(&answers::M, &mut page, 6);
    example(true, &page, 0, expected)
}

// Two pages whose packet would fit in one. The first is kept; with the second the series is complete, refused and freed.
pub fn too_short() -> u8 {
    let mut pages = [0x00; 176];
    put_octets(b"\x00\x00\x10\x80\x96\x12\x00\x50\x0D", &mut pages, 0);
    put_octets(b"\x00\x00\x10\x80\x96\x22", &mut pages, PAGE_OCTETS);
    let kept = answers::among(0, false, 0, NONE, NONE);
    let first = example(true, first_octets(&pages, PAGE_OCTETS), 0, kept);
    answers::held_to(
        first == 0,
        example(true, &pages, PAGE_OCTETS as u8, Expected::Ended),
    )
}

// Part 2 of 2 arrives of the series A, B, C and these two, up to that whose octets begin at `last`. There are three slots.
fn series(fourth: u8, fifth: u8, last: u8, expected: Expected) -> u8 {
    let mut uds =
        *b"\x05\x00\x03\x0A\x02\x02.\x05\x00\x03\x0B\x02\x02.\x05\x00\x03\x0C\x02\x02.\x05\x00\x03?\x02\x02.\x05\x00\x03?\x02\x02.";
    uds[24] = fourth;
    uds[31] = fifth;
    in_three(first_octets(&uds, last as usize + 7), last, expected)
}

// A, B, C, then D displaces A; A, B, C, A again, then D displaces B.
pub fn displaced() -> u8 {
    let three = series(0, 0, 14, answers::among(2, false, 0xA, 0xB, 0xC));
    let first = series(0xD, 0, 21, answers::among(0, true, 0xD, 0xB, 0xC));
    let second = series(0xA, 0xD, 28, answers::among(1, true, 0xA, 0xD, 0xC));
    answers::held_to((three == 0) & (first == 0), second)
}
