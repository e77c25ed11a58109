// Showing the parts of a packet: each is the part of the lent octets that holds it, and of a packet that is refused or has the other body the
// empty part at their start. The octets behind the lengths begin at the place `start`.
ghost use Rattle.std.specs.Prelude.{◌≡◌, drop};
ghost use Rattle.packet.specs.Packets.{ciphered_command, data_by, check_by, opaque_by, shown_data, shown_check, shown_opaque};
ghost use Rattle.packet.specs.Judging.{told_judged};

use crate::{behind, layout, read};
use types::{Kind, Refusal};

// ---- of whatever carries it
// The secured data of a plain body: what is behind the header.
pub fn data_of(
    kind: Kind,
    ciphered: bool,
    judged: Result<usize, Refusal>,
    start: usize,
    packet: &[u8],
) -> &[u8]
    ensures { result.now ≡ data_by kind ciphered (drop start packet.now) (told_judged judged) }
{
    match judged {
        Ok(header) if !ciphered => behind::past(behind::past(packet, start), header),
        _ => &packet[..0],
    }
}

// The check field of a plain body.
pub fn check_of(
    kind: Kind,
    ciphered: bool,
    judged: Result<usize, Refusal>,
    start: usize,
    packet: &[u8],
) -> &[u8]
    ensures { result.now ≡ check_by kind ciphered (drop start packet.now) (told_judged judged) }
{
    match judged {
        Ok(header) if !ciphered => {
            behind::check_field(kind, header, behind::past(packet, start))
        }
        _ => &packet[..0],
    }
}

// The octets of a ciphered body: everything from CNTR on.
pub fn opaque_of(
    kind: Kind,
    ciphered: bool,
    judged: Result<usize, Refusal>,
    start: usize,
    packet: &[u8],
) -> &[u8]
    ensures { result.now ≡ opaque_by kind ciphered (drop start packet.now) (told_judged judged) }
{
    match judged {
        Ok(_) if ciphered => behind::past(behind::past(packet, start), layout::before(kind)),
        _ => &packet[..0],
    }
}

// ---- of a packet, whose lengths are its first three octets
fn packet_data(kind: Kind, ciphered: bool, packet: &[u8]) -> &[u8]
    ensures { result.now ≡ shown_data kind ciphered packet.now }
{
    data_of(
        kind,
        ciphered,
        read::judge(kind, ciphered, packet),
        3,
        packet,
    )
}

fn packet_check(kind: Kind, ciphered: bool, packet: &[u8]) -> &[u8]
    ensures { result.now ≡ shown_check kind ciphered packet.now }
{
    check_of(
        kind,
        ciphered,
        read::judge(kind, ciphered, packet),
        3,
        packet,
    )
}

fn packet_opaque(kind: Kind, ciphered: bool, packet: &[u8]) -> &[u8]
    ensures { result.now ≡ shown_opaque kind ciphered packet.now }
{
    opaque_of(
        kind,
        ciphered,
        read::judge(kind, ciphered, packet),
        3,
        packet,
    )
}

// ---- of a command, which says itself whether it is ciphered
pub fn command_data(packet: &[u8]) -> &[u8]
    ensures { result.now ≡ shown_data Kind.Command (ciphered_command packet.now) packet.now }
{
    packet_data(Kind::Command, read::ciphered_command(packet), packet)
}

pub fn command_check(packet: &[u8]) -> &[u8]
    ensures { result.now ≡ shown_check Kind.Command (ciphered_command packet.now) packet.now }
{
    packet_check(Kind::Command, read::ciphered_command(packet), packet)
}

pub fn command_opaque(packet: &[u8]) -> &[u8]
    ensures { result.now ≡ shown_opaque Kind.Command (ciphered_command packet.now) packet.now }
{
    packet_opaque(Kind::Command, read::ciphered_command(packet), packet)
}

// ---- of a response, of which the caller says whether it is ciphered
pub fn response_data(packet: &[u8], ciphered: bool) -> &[u8]
    ensures { result.now ≡ shown_data Kind.Response ciphered packet.now }
{
    packet_data(Kind::Response, ciphered, packet)
}

pub fn response_check(packet: &[u8], ciphered: bool) -> &[u8]
    ensures { result.now ≡ shown_check Kind.Response ciphered packet.now }
{
    packet_check(Kind::Response, ciphered, packet)
}

pub fn response_opaque(packet: &[u8], ciphered: bool) -> &[u8]
    ensures { result.now ≡ shown_opaque Kind.Response ciphered packet.now }
{
    packet_opaque(Kind::Response, ciphered, packet)
}
