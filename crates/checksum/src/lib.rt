#![tactic(auto)]
// The octets that a checksum covers, collected into a lent buffer: of a response after the fixed octets 02 71 00 (000, 4.4; 001, 4.5), and
// without the check field.
ghost use Rattle.std.specs.Prelude.{◌≡◌, ◌++◌, ◌+◌, ◌≤◌, length};
ghost use Rattle.octets.specs.Octets.{placed};
ghost use Rattle.types.specs.Refusals.{gives, lent, writes, told_written};
ghost use Rattle.packet.specs.Packets.{least, ciphered_command, fixed_octets, runs_from, summed, checksummed};

use packet::{behind, layout, read};
use types::{CHECKSUM_OCTETS, Kind, PACKET_OCTETS, Refusal};

// Puts the octets that are before the packet of a kind, and says how many they are.
fn fixed(kind: Kind, out: &mut [u8]) -> usize
    requires { 3 ≤ length out.old }
    ensures value { (result ≡ length (fixed_octets kind)) × (result ≤ 3) }
    ensures out_after { out.new ≡ placed out.old 0 (fixed_octets kind) }
{
    match kind {
        Kind::Command => 0,
        Kind::Response => {
            octets::put(b"\x02\x71\x00", out, 0);
            3
        }
    }
}

// Puts a run of octets at a place of the buffer; answers with the place behind it.
fn put_run(run: &[u8], out: &mut [u8], at: usize) -> usize
    requires { at + length run.now ≤ length out.old }
    ensures value { result ≡ at + length run.now }
    ensures out_after { out.new ≡ placed out.old at run.now }
{
    octets::put(run, out, at);
    at + run.len()
}

// All of them, of a packet that is plain and whose header is within what is behind its lengths, in two runs: the header before the check field,
// and the data behind it. What is behind the lengths begins at the place `start`.
fn collect(
    kind: Kind,
    start: usize,
    header: usize,
    packet: &[u8],
    out: &mut [u8],
) -> Result<usize, Refusal>
    requires kind_bound { (least kind ≤ header) × (start + header ≤ length packet.now) }
    requires packet_len_bound { (length packet.now ≤ 2142) × (length out.old ≡ 2145) }
    ensures { lent (told_written result) out.new ≡ writes (gives (fixed_octets kind ++ runs_from start kind header packet.now)) out.old }
{
    let lead = fixed(kind, out);
    let end = start + layout::least(kind);
    let at = put_run(octets::up_to(packet, end), out, lead);
    let from = start + header;
    Ok(put_run(&packet[from..], out, at))
}

// The checksum octets of what is behind the lengths of a packet, and of all before it, whatever carries it: refused 1, 9 if the header is not
// within the octets, 12, 15 or 10, or how many octets they are.
pub fn checksum_from(
    kind: Kind,
    ciphered: bool,
    start: usize,
    header: usize,
    packet: &[u8],
    out: &mut [u8],
) -> Result<usize, Refusal>
    ensures { lent (told_written result) out.new ≡ summed kind ciphered start header packet.now out.old }
{
    if out.len() != CHECKSUM_OCTETS {
        return Err(Refusal::BufferOrRecord);
    }
    let rest = behind::past(packet, start);
    if !behind::within(kind, header, rest) {
        return Err(Refusal::MalformedPacket);
    }
    if PACKET_OCTETS < packet.len() {
        return Err(Refusal::PacketTooLong);
    }
    if behind::against_check(kind, ciphered, header, rest) {
        return Err(Refusal::CheckMismatch);
    }
    if ciphered {
        return Err(Refusal::CipherMismatch);
    }
    collect(kind, start, header, packet, out)
}

// The checksum octets of a packet of a kind: refused 1, 9, 12, 15 or 10, or how many octets they are.
fn checksum(kind: Kind, ciphered: bool, packet: &[u8], out: &mut [u8]) -> Result<usize, Refusal>
    ensures { lent (told_written result) out.new ≡ checksummed kind ciphered packet.now out.old }
{
    if out.len() != CHECKSUM_OCTETS {
        return Err(Refusal::BufferOrRecord);
    }
    if !read::well_formed(kind, packet) {
        return Err(Refusal::MalformedPacket);
    }
    let header = usize::from(read::header_of(packet));
    checksum_from(kind, ciphered, 3, header, packet, out)
}

// The octets that the checksum of a command covers.
pub fn command_checksum(packet: &[u8], out: &mut [u8]) -> Result<usize, Refusal>
    ensures { lent (told_written result) out.new ≡ checksummed Kind.Command (ciphered_command packet.now) packet.now out.old }
{
    checksum(Kind::Command, read::ciphered_command(packet), packet, out)
}

// The octets that the checksum of a response covers, of which the caller says whether it is ciphered.
pub fn response_checksum(packet: &[u8], ciphered: bool, out: &mut [u8]) -> Result<usize, Refusal>
    ensures { lent (told_written result) out.new ≡ checksummed Kind.Response ciphered packet.now out.old }
{
    checksum(Kind::Response, ciphered, packet, out)
}
