// Lines on packets and on USSD strings: parsing, showing, checksum octets.
use answers::{Buffers, print};
use skelmarix::own_octets;
use values::fields::octet;
use values::rows;
use values::rows::Row;
use words::table;

// What a command parses to, or its parts.
fn command(parsed: bool, packet: &[u8]) -> Row {
    if parsed {
        return rows::command(skelmarix::parse_command(packet));
    }
    rows::shown()
}

// The same for a response.
fn response(parsed: bool, ciphered: bool, packet: &[u8]) -> Row {
    if parsed {
        return rows::response(skelmarix::parse_response(packet, ciphered));
    }
    rows::shown()
}

fn say_command(parsed: bool, packet: &[u8], text: &mut [u8], at: usize) -> usize {
    let buffers = Buffers {
        first: skelmarix::command_check(packet),
        second: skelmarix::command_data(packet),
        third: skelmarix::command_opaque(packet),
    };
    print(command(parsed, packet), buffers, text, at)
}

fn say_response(row: usize, packet: &[u8], text: &mut [u8], at: usize) -> usize {
    let ciphered = (row == table::CIPHERED_RESPONSE) | (row == table::SHOW_CIPHERED);
    let r = response(row <= table::CIPHERED_RESPONSE, ciphered, packet);
    let buffers = Buffers {
        first: skelmarix::response_check(packet, ciphered),
        second: skelmarix::response_data(packet, ciphered),
        third: skelmarix::response_opaque(packet, ciphered),
    };
    print(r, buffers, text, at)
}

// What a USSD string reads to, or its parts.
fn string(read: bool, pfi: u8, dcs: u8, string: &[u8]) -> Row {
    if read {
        return rows::command(skelmarix::read_ussd(pfi, dcs, string));
    }
    rows::shown()
}

// PFI and DCS are the first two octets.
fn say_string(read: bool, fields: &[u8], text: &mut [u8], at: usize) -> usize {
    let pfi = octet(fields, 0);
    let dcs = octet(fields, 1);
    let whole = own_octets(fields, 2);
    let r = string(read, pfi, dcs, whole);
    let buffers = Buffers {
        first: skelmarix::ussd_check(pfi, dcs, whole),
        second: skelmarix::ussd_data(pfi, dcs, whole),
        third: skelmarix::ussd_opaque(pfi, dcs, whole),
    };
    print(r, buffers, text, at)
}

// Whether a line asks what a packet or a USSD string parses to, or for its parts.
pub fn is_packet(row: usize) -> bool {
    ((table::COMMAND <= row) & (row <= table::SHOW_CIPHERED))
        | ((table::READ_USSD <= row) & (row <= table::SHOW_USSD))
}

// Prints what a packet or a USSD string parses to, or its parts.
pub fn say_packet(row: usize, packet: &[u8], text: &mut [u8], at: usize) -> usize {
    if (row == table::COMMAND) | (row == table::SHOW_COMMAND) {
        return say_command(row == table::COMMAND, packet, text, at);
    }
    if table::SHOW_CIPHERED < row {
        return say_string(row == table::READ_USSD, packet, text, at);
    }
    say_response(row, packet, text, at)
}

// The octets that a checksum covers.
pub(crate) fn sum(row: usize, packet: &[u8], out: &mut [u8]) -> Result<usize, types::Refusal> {
    if row == table::SUM_COMMAND {
        return skelmarix::command_checksum(packet, out);
    }
    if row == table::SUM_USSD {
        return skelmarix::ussd_checksum(packet, out);
    }
    skelmarix::response_checksum(packet, row == table::SUM_CIPHERED, out)
}
