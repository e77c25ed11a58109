// Lines on arrivals, on splitting and on reports: what one message or page brings, one part of a packet written, and what goes out of a response.
use skelmarix::own_octets;
use types::{Refusal, WrittenPart};
use values::fields::{kind_of, narrow, octet, pair_at, sender_of};
use values::rows;
use values::rows::Row;
use words::line::{Line, VALUES};
use words::table;

// ---- arrivals, and what a response announces
fn message(response: bool, fields: &[u8]) -> Row {
    let octets = own_octets(fields, 4);
    rows::arrival(skelmarix::read_message(kind_of(response), sender_of(fields), octets))
}

fn page(response: bool, fields: &[u8]) -> Row {
    rows::arrival(skelmarix::read_page(kind_of(response), fields))
}

// What one arrival brings, and whether a response announces another. The answer to every other line is the row that was made of it already.
pub(crate) fn asked(row: usize, fields: &[u8], made: Row) -> Row {
    if (row == table::READ_COMMAND) | (row == table::READ_RESPONSE) {
        return message(row == table::READ_RESPONSE, fields);
    }
    if (table::READ_RESPONSE < row) & (row <= table::READ_PAGE_RESPONSE) {
        return page(row == table::READ_PAGE_RESPONSE, fields);
    }
    if row == table::ANNOUNCES {
        return rows::announcing(skelmarix::response_announces(fields));
    }
    made
}

// ---- parts
// Serial number, message identifier and DCS are the first five octets.
fn write_page(number: u32, fields: &[u8], out: &mut [u8]) -> Result<WrittenPart, Refusal> {
    let serial = types::SerialNumber(pair_at(fields, 0));
    let identifier = types::MessageIdentifier(pair_at(fields, 2));
    let packet = own_octets(fields, 5);
    skelmarix::write_page(serial, identifier, octet(fields, 4), number, packet, out)
}

fn write_message(
    response: bool,
    v: [u64; VALUES],
    packet: &[u8],
    out: &mut [u8],
) -> Result<WrittenPart, Refusal> {
    let width = narrow(v[0]);
    let reference = narrow(v[1]);
    let number = narrow(v[2]);
    skelmarix::write_message(kind_of(response), width, reference, number, packet, out)
}

// ---- reports
// The edition of a line on a report: its fourth word, or the present one if it is left out.
fn edition_of(count: usize, n: u64) -> u32 {
    if count == 4 {
        return narrow(n);
    }
    types::PRESENT_EDITION
}

// What goes out of a response: SPI is the first two octets.
fn report(capacity: usize, edition: u32, fields: &[u8], out: &mut [u8]) -> Row {
    let spi = types::Spi(octet(fields, 0), octet(fields, 1));
    let response = own_octets(fields, 2);
    rows::outgoing(skelmarix::write_report(spi, capacity, edition, response, out))
}

// ---- by the row
// Writes the part, or the report, that a line asks for.
pub(crate) fn write(l: Line, fields: &[u8], out: &mut [u8]) -> Row {
    let values = l.values;
    if l.row == table::REPORT {
        let edition = edition_of(l.count, values[3]);
        return report(narrow(values[1]) as usize, edition, fields, out);
    }
    if l.row == table::WRITE_PAGE {
        return rows::written_part(write_page(narrow(values[3]), fields, out));
    }
    let response = l.row == table::WRITE_RESPONSE;
    rows::written_part(write_message(response, values, fields, out))
}
