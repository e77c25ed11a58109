#![tactic(auto)]
// Lines that leave alone what is kept: calls on packets, USSD strings, arrivals, parts and reports. Each is known by its row of the table, and its
// octets are one word's behind the other's (`values::fields`).
mod building;
mod packets;
mod parts;

ghost use Rattle.std.specs.Prelude.{◌≡◌, ◌≤◌, length, replicate};
ghost use Rattle.lines.specs.Lent.{lent_of, wanted_of};

pub use packets::{is_packet, say_packet};
use types::{CHECKSUM_OCTETS, PACKET_OCTETS};
use values::fields::octet;
use values::rows;
use values::rows::Row;
use words::line::Line;
use words::table;

// A number of octets lent that means the right one.
pub const RIGHT: usize = 65535;

// How many octets of so many are lent: n, or the right number; all if there are fewer.
pub fn lent(n: usize, right: usize, all: usize) -> usize
    ensures { (result ≡ lent_of n right all) × (result ≤ all) }
{
    let wanted = wanted(n, right);
    if wanted < all { wanted } else { all }
}

// How many octets are to be lent.
fn wanted(n: usize, right: usize) -> usize
    ensures { result ≡ wanted_of n right }
{
    if n == RIGHT { right } else { n }
}

// Whether a line that writes to the buffer asks for checksum octets.
fn is_sum(row: usize) -> bool {
    (row < table::BUILD_COMMAND) | (row == table::SUM_USSD)
}

// The right number for a line that writes to the buffer. A checksum covers a packet and the three octets before a response.
fn right(row: usize) -> usize {
    if is_sum(row) {
        return CHECKSUM_OCTETS;
    }
    if table::SUM_USSD < row {
        return types::USSD_OCTETS;
    }
    if row < table::BUILD_CIPHERED_RESPONSE + 1 {
        return PACKET_OCTETS;
    }
    if row == table::WRITE_PAGE {
        types::PAGE_OCTETS
    } else {
        types::USER_DATA_OCTETS
    }
}

// Fills a buffer with one octet.
pub fn fill(buffer: &mut [u8], x: u8)
    ensures { buffer.new ≡ replicate (length buffer.old) x }
{
    buffer.fill(x);
}

// What is built: a USSD string, or a packet.
fn name_of(row: usize) -> &'static str {
    if table::SUM_USSD < row {
        "string"
    } else {
        "packet"
    }
}

// Makes what a line asks for at the start of what is lent of the buffer.
fn made(l: Line, fields: &[u8], out: &mut [u8]) -> Row {
    if is_sum(l.row) {
        return rows::written("octets", packets::sum(l.row, fields, out));
    }
    if (l.row < table::BUILD_CIPHERED_RESPONSE + 1) | (table::SUM_USSD < l.row) {
        return rows::written(name_of(l.row), building::build(l, fields, out));
    }
    parts::write(l, fields, out)
}

// Whether a line writes to the buffer.
fn writes(row: usize) -> bool {
    ((table::SUM_COMMAND <= row) & (row <= table::WRITE_PAGE))
        | (row == table::REPORT)
        | ((table::SUM_USSD <= row) & (row <= table::WRITE_CIPHERED_USSD))
}

// What a line answers, the packets' apart; `row` is what was made of it already, and of the buffer `size` octets are lent. A line that fills fills the
// buffer too.
pub fn answer_row(l: Line, fields: &[u8], row: Row, size: usize, buffer: &mut [u8]) -> Row {
    if writes(l.row) {
        let n = lent(size, right(l.row), buffer.len());
        return made(l, fields, &mut buffer[0..n]);
    }
    if l.row == table::FILL {
        fill(buffer, octet(fields, 0));
        return row;
    }
    parts::asked(l.row, fields, row)
}
