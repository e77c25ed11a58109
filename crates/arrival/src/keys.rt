// What a key and a part can be (01, "Numbers"). Each test is asked of what is read, of what a record holds or of what is to be written, and is
// said here only.
ghost use Rattle.std.specs.Prelude.{◌≡◌, ◌≤◌};
ghost use Rattle.arrival.specs.Page.{identifier_in_range, no_pages};
ghost use Rattle.arrival.specs.Keys.{reference_fits, room};

use types::{Kind, MessageIdentifier, PART_OCTETS};

// Whether a message identifier is one of those set aside for secured packets.
pub fn in_range(identifier: MessageIdentifier) -> bool
    ensures { result ≡ identifier_in_range identifier.0 }
{
    (0x1080..=0x109F).contains(&identifier.0)
}

// Whether records of this kind take no pages.
pub fn is_pageless(kind: Kind) -> bool
    ensures { result ≡ no_pages kind }
{
    kind == Kind::Response
}

// Whether a width is 8 or 16 and the reference fits it.
pub fn reference_fits(width: u32, reference: u32) -> bool
    ensures { result ≡ reference_fits width reference }
{
    match width {
        8 => reference < 256,
        16 => reference < 65536,
        _ => false,
    }
}

// The most octets of part `number` of a short message: the wider reference takes one, and in part 1 the packet identifier two.
pub fn room(width: u32, number: usize) -> usize
    ensures { (result ≡ room width number) × (131 ≤ result) × (result ≤ 134) }
{
    let most = if width == 16 {
        PART_OCTETS - 1
    } else {
        PART_OCTETS
    };
    if number == 1 { most - 2 } else { most }
}
