// What a cell broadcast page brings (01, "Pages"): 2, 4, 5 in this order.
ghost use Rattle.std.specs.Prelude.{◌≡◌, length};
ghost use Rattle.arrival.specs.Arrivals.{told_arrival};
ghost use Rattle.arrival.specs.Page.{page_octets, serial_in, identifier_in, one_of_one, page_number, page_total, misdirected, page_key, read_page};

use crate::keys::{in_range, is_pageless};
use types::{Arrival, Key, Kind, MessageIdentifier, PAGE_OCTETS, Refusal, SerialNumber};

// Whether a page parameter has a zero in either half, which means page 1 of 1.
fn is_one_of_one(parameter: u8) -> bool
    ensures { result ≡ one_of_one parameter }
{
    (parameter / 16 == 0) | (parameter % 16 == 0)
}

// The page's number, the high half of the parameter, and the total, the low half.
fn number_in(parameter: u8) -> u8
    ensures { result ≡ page_number parameter }
{
    if is_one_of_one(parameter) {
        return 1;
    }
    parameter / 16
}

fn total_in(parameter: u8) -> u8
    ensures { result ≡ page_total parameter }
{
    if is_one_of_one(parameter) {
        return 1;
    }
    parameter % 16
}

// The two numbers of a page's header, each of its own sort.
fn serial_in(page: &[u8]) -> SerialNumber
    requires { length page.now ≡ page_octets }
    ensures { result.0 ≡ serial_in page.now }
{
    SerialNumber(octets::number_of(page[0], page[1]))
}

fn identifier_in(page: &[u8]) -> MessageIdentifier
    requires { length page.now ≡ page_octets }
    ensures { result.0 ≡ identifier_in page.now }
{
    MessageIdentifier(octets::number_of(page[2], page[3]))
}

// Whether a page with this identifier is not for a record of this kind.
fn is_misdirected(kind: Kind, identifier: MessageIdentifier) -> bool
    ensures { result ≡ misdirected kind identifier.0 }
{
    is_pageless(kind) | !in_range(identifier)
}

// The key of the series that a page belongs to: what short messages use of a key is zero.
fn key_of(serial: SerialNumber, identifier: MessageIdentifier) -> Key
    ensures { result ≡ page_key serial.0 identifier.0 }
{
    Key {
        sender: 0,
        width: 0,
        reference: 0,
        serial,
        identifier,
    }
}

// What a page brings: its content begins behind the six octets of its header.
pub fn read_page(kind: Kind, page: &[u8]) -> Result<Arrival, Refusal>
    ensures { told_arrival result ≡ read_page kind page.now }
{
    if page.len() != PAGE_OCTETS {
        return Err(Refusal::InputLength);
    }
    let parameter = page[5];
    let total = total_in(parameter);
    let number = number_in(parameter);
    if total < number {
        return Err(Refusal::HeaderElement);
    }
    let identifier = identifier_in(page);
    if is_misdirected(kind, identifier) {
        return Err(Refusal::WrongIdentifier);
    }
    if total == 1 {
        return Ok(Arrival::Single { start: 6 });
    }
    Ok(Arrival::Part {
        key: key_of(serial_in(page), identifier),
        total,
        number,
        start: 6,
    })
}
