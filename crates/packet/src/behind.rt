// What is behind the two lengths of a packet, whatever carries it and however its lengths are coded: its octets, and the header length. Packets
// of 01 and USSD strings are read by these functions; none of them knows where the octets began.
ghost use Rattle.std.specs.Prelude.{◌≡◌, [], ◌∷◌, ◌+◌, ◌-◌, ◌≤◌, ◌<◌, length, get_or, slice_index, take, drop};
ghost use Rattle.types.specs.Refusals.{gives};
ghost use Rattle.packet.specs.Packets.{before, least, within, ciphered_behind, fields_behind, measured, against_check, readable_behind, parsing_behind};
ghost use Rattle.packet.specs.Judging.{told_judged};
ghost use Rattle.packet.specs.Told.{tar_octets, clear_octets, counter_octets, command_fields, response_fields, told_command, told_response};
ghost use Rattle.packet.specs.Laws.{FieldsWithin};

use crate::layout;
use types::{
    Clear, Cntr, Command, CommandBody, Kind, Opaque, PlainCommand, PlainResponse, Refusal,
    Response, ResponseBody, Spi, Tar,
};

// ---- octets
// The octet at a place; past the end, 0.
pub fn octet(octets: &[u8], at: usize) -> u8
    ensures { result ≡ get_or octets.now at 0 }
{
    octets.get(at).copied().unwrap_or(0)
}

// The octets from a place on; past the end, the empty part.
pub fn past(octets: &[u8], at: usize) -> &[u8]
    ensures { result.now ≡ drop at octets.now }
{
    octets.get(at..).unwrap_or(&octets[..0])
}

// ---- tests
// Whether a command says that its body is ciphered; without an SPI it does not.
pub fn ciphered(behind: &[u8]) -> bool
    ensures { result ≡ ciphered_behind behind.now }
{
    layout::cipher_bit(octet(behind, 0))
}

// Whether a header of this length has room for its fixed fields, and ends within the octets.
pub fn within(kind: Kind, header: usize, behind: &[u8]) -> bool
    ensures { result ≡ within kind header behind.now }
{
    (layout::least(kind) <= header) & (header <= behind.len())
}

// The check field: what the header has behind its fixed fields. A header without room for those has none.
pub fn check_field(kind: Kind, header: usize, behind: &[u8]) -> &[u8]
    ensures { result.now ≡ take (header - least kind) (drop (least kind) behind.now) }
{
    let least = layout::least(kind);
    octets::up_to(past(behind, least), header.saturating_sub(least))
}

// Whether the check bits of a plain command are against its check field.
pub fn against_check(kind: Kind, ciphered: bool, header: usize, behind: &[u8]) -> bool
    ensures { result ≡ against_check kind (fields_behind kind ciphered header behind.now) }
{
    let field = check_field(kind, header, behind);
    !ciphered && layout::against_bits(kind, octet(behind, 0), field.len())
}

// ---- fields
// TAR, from a place on; zeros if its octets are not all there.
pub fn tar_at(behind: &[u8], at: usize) -> Tar
    ensures octets { at + 3 ≤ length behind.now → tar_octets result ≡ take 3 (drop at behind.now) }
    ensures value { at + 3 ≤ length behind.now → result ≡ (slice_index behind.now at, slice_index behind.now (at + 1), slice_index behind.now (at + 2)) }
    ensures none { length behind.now < at + 3 → result ≡ (0, 0, 0) }
{
    match past(behind, at) {
        [a, b, c, ..] => Tar(*a, *b, *c),
        _ => Tar(0, 0, 0),
    }
}

// CNTR, from a place on; zeros if its octets are not all there.
pub fn cntr_at(behind: &[u8], at: usize) -> Cntr
    ensures octets { at + 5 ≤ length behind.now → counter_octets result [] ≡ take 5 (drop at behind.now) }
    ensures value { at + 5 ≤ length behind.now → result ≡ (slice_index behind.now at, slice_index behind.now (at + 1), slice_index behind.now (at + 2), slice_index behind.now (at + 3), slice_index behind.now (at + 4)) }
    ensures none { length behind.now < at + 5 → result ≡ (0, 0, 0, 0, 0) }
{
    match past(behind, at) {
        [a, b, c, d, e, ..] => Cntr(*a, *b, *c, *d, *e),
        _ => Cntr(0, 0, 0, 0, 0),
    }
}

// What is before the counter of a command.
fn clear_of(behind: &[u8]) -> Clear
    requires { 7 ≤ length behind.now }
    ensures { clear_octets result ≡ take 7 behind.now }
{
    Clear {
        spi: Spi(behind[0], behind[1]),
        kic: behind[2],
        kid: behind[3],
        tar: tar_at(behind, 4),
    }
}

// A ciphered body.
fn opaque_body(kind: Kind, header: u8, behind: &[u8]) -> Opaque
    requires { FieldsWithin kind header behind.now }
    ensures { (result.header_length ≡ header) × (result.opaque_length ≡ length behind.now - before kind) }
{
    Opaque {
        header_length: header,
        opaque_length: behind.len() - layout::before(kind),
    }
}

// A plain command from its counter on. It and a plain response are two types of the interface, so each is made by a function of its own.
fn plain_command(header: usize, behind: &[u8]) -> PlainCommand
    requires { FieldsWithin Kind.Command header behind.now }
    ensures pcntr_value { counter_octets result.cntr (result.pcntr ∷ []) ≡ take 6 (drop 7 behind.now) }
    ensures check_length_value { (result.check_length ≡ header - 13) × (result.data_length ≡ length behind.now - header) }
{
    PlainCommand {
        cntr: cntr_at(behind, 7),
        pcntr: behind[12],
        check_length: header - layout::least(Kind::Command),
        data_length: behind.len() - header,
    }
}

// A plain response from its counter on.
fn plain_response(header: usize, behind: &[u8]) -> PlainResponse
    requires { FieldsWithin Kind.Response header behind.now }
    ensures status_value { counter_octets result.cntr (result.pcntr ∷ result.status ∷ []) ≡ take 7 (drop 3 behind.now) }
    ensures check_length_value { (result.check_length ≡ header - 10) × (result.data_length ≡ length behind.now - header) }
{
    PlainResponse {
        cntr: cntr_at(behind, 3),
        pcntr: behind[8],
        status: behind[9],
        check_length: header - layout::least(Kind::Response),
        data_length: behind.len() - header,
    }
}

// The fields of a command whose header is within the octets, and whose body is ciphered or not.
fn command_fields(ciphered: bool, header: u8, behind: &[u8]) -> Command
    requires { FieldsWithin Kind.Command header behind.now }
    ensures { command_fields result.clear result.body ≡ measured (fields_behind Kind.Command ciphered header behind.now) }
{
    Command {
        clear: clear_of(behind),
        body: if ciphered {
            CommandBody::Ciphered(opaque_body(Kind::Command, header, behind))
        } else {
            CommandBody::Plain(plain_command(usize::from(header), behind))
        },
    }
}

// The fields of a response whose header is within the octets, and whose body is ciphered if the caller says so.
fn response_fields(ciphered: bool, header: u8, behind: &[u8]) -> Response
    requires { FieldsWithin Kind.Response header behind.now }
    ensures { response_fields result.tar result.body ≡ measured (fields_behind Kind.Response ciphered header behind.now) }
{
    Response {
        tar: tar_at(behind, 0),
        body: if ciphered {
            ResponseBody::Ciphered(opaque_body(Kind::Response, header, behind))
        } else {
            ResponseBody::Plain(plain_response(usize::from(header), behind))
        },
    }
}

// ---- reading
// What is asked of the octets before their fields are read: 9 if the header is not within them, then 15; or the header length.
fn checked(kind: Kind, ciphered: bool, header: u8, behind: &[u8]) -> Result<usize, Refusal>
    ensures { told_judged result ≡ readable_behind kind ciphered header behind.now (gives header) }
{
    let size = usize::from(header);
    if !within(kind, size, behind) {
        return Err(Refusal::MalformedPacket);
    }
    if against_check(kind, ciphered, size, behind) {
        return Err(Refusal::CheckMismatch);
    }
    Ok(size)
}

// The fields of a command: refused 9 if the header is not within the octets, then 15.
pub fn command(ciphered: bool, header: u8, behind: &[u8]) -> Result<Command, Refusal>
    ensures { told_command result ≡ parsing_behind Kind.Command ciphered header behind.now }
{
    checked(Kind::Command, ciphered, header, behind)?;
    Ok(command_fields(ciphered, header, behind))
}

// The fields of a response: refused 9 if the header is not within the octets. It has no check bits, so it is not refused 15.
pub fn response(ciphered: bool, header: u8, behind: &[u8]) -> Result<Response, Refusal>
    ensures { told_response result ≡ parsing_behind Kind.Response ciphered header behind.now }
{
    checked(Kind::Response, ciphered, header, behind)?;
    Ok(response_fields(ciphered, header, behind))
}
