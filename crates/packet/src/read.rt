// Reading a packet of 01: whether it is well formed, and its fields. What is behind its two lengths is read in `behind`.
ghost use Rattle.std.specs.Prelude.{◌≡◌, drop};
ghost use Rattle.types.specs.Refusals.{gives};
ghost use Rattle.packet.specs.Packets.{chl, formed_by, well_formed, ciphered_command, sized, readable, parsing};
ghost use Rattle.packet.specs.Told.{told_command, told_response};
ghost use Rattle.packet.specs.Judging.{told_judged};

use crate::{behind, layout};
use types::{Command, Kind, PACKET_OCTETS, Refusal, Response};

// ---- well formed
// Whether a packet of `size` octets that begins with these three is well formed: nothing else of a packet is looked at, so a caller whose
// packet is not in one piece can ask too.
pub fn formed(kind: Kind, size: usize, high: u8, low: u8, header: u8) -> bool
    ensures { result ≡ formed_by kind size high low header }
{
    let cpl = usize::from(octets::number_of(high, low));
    let chl = usize::from(header);
    let least = layout::least(kind);
    (cpl + 2 == size) & (least <= chl) & (chl + 1 <= cpl)
}

// Whether a packet is well formed. One too short to have both lengths is not.
pub fn well_formed(kind: Kind, packet: &[u8]) -> bool
    ensures { result ≡ well_formed kind packet.now }
{
    let [high, low, header, ..] = packet else {
        return false;
    };
    formed(kind, packet.len(), *high, *low, *header)
}

// CHL or RHL; of a packet too short for it, 0.
pub fn header_of(packet: &[u8]) -> u8
    ensures { result ≡ chl packet.now }
{
    behind::octet(packet, 2)
}

// Whether a command says that its body is ciphered; one too short for an SPI does not.
pub fn ciphered_command(packet: &[u8]) -> bool
    ensures { result ≡ ciphered_command packet.now }
{
    layout::cipher_bit(behind::octet(packet, 3))
}

// What is asked of a packet before what is behind its lengths: 9, then 12, or its header length.
fn front(kind: Kind, packet: &[u8]) -> Result<usize, Refusal>
    ensures { told_judged result ≡ sized kind packet.now (gives (chl packet.now)) }
{
    if !well_formed(kind, packet) {
        return Err(Refusal::MalformedPacket);
    }
    if PACKET_OCTETS < packet.len() {
        return Err(Refusal::PacketTooLong);
    }
    Ok(usize::from(header_of(packet)))
}

// What is behind the two lengths of a packet.
pub fn behind_lengths(packet: &[u8]) -> &[u8]
    ensures { result.now ≡ drop 3 packet.now }
{
    behind::past(packet, 3)
}

// Whether a packet can be read, whose body is ciphered or not: 9, then 12, then 15.
pub fn judge(kind: Kind, ciphered: bool, packet: &[u8]) -> Result<usize, Refusal>
    ensures { told_judged result ≡ readable kind ciphered packet.now (gives (chl packet.now)) }
{
    let header = front(kind, packet)?;
    if behind::against_check(kind, ciphered, header, behind_lengths(packet)) {
        return Err(Refusal::CheckMismatch);
    }
    Ok(header)
}

// ---- parsing
// Parses a command: its fields, or refusal 9, 12 or 15.
pub fn parse_command(packet: &[u8]) -> Result<Command, Refusal>
    ensures { told_command result ≡ parsing Kind.Command (ciphered_command packet.now) packet.now }
{
    front(Kind::Command, packet)?;
    behind::command(
        ciphered_command(packet),
        header_of(packet),
        behind_lengths(packet),
    )
}

// Parses a response, of which the caller says whether it is ciphered: its fields, or refusal 9 or 12.
pub fn parse_response(packet: &[u8], ciphered: bool) -> Result<Response, Refusal>
    ensures { told_response result ≡ parsing Kind.Response ciphered packet.now }
{
    front(Kind::Response, packet)?;
    behind::response(ciphered, header_of(packet), behind_lengths(packet))
}
