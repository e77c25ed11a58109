#![tactic(auto)]
// Splitting: a packet is written as user data of short messages, or as cell broadcast pages, one part a call.
mod message;
mod page;
mod part;

ghost use Rattle.std.specs.Prelude.{◌≡◌};
ghost use Rattle.split.specs.Splitting.{told, written, write_message, write_page};

use types::{Kind, MessageIdentifier, Refusal, SerialNumber, WrittenPart};

// Writes one part of a packet as the user data of a short message to the start of the 140 octets in out, and leaves the rest of them as it
// was. A refusal writes nothing.
pub fn write_message(
    kind: Kind,
    width: u32,
    reference: u32,
    number: u32,
    packet: &[u8],
    out: &mut [u8],
) -> Result<WrittenPart, Refusal>
    ensures { written (told result) out.new ≡ write_message kind width reference packet.now number out.old }
{
    let total = message::due(kind, width, reference, number, packet, out.len())?;
    let length = message::write(kind, width, reference, total, number, packet, out);
    Ok(WrittenPart { total, length })
}

// Writes one page of a command packet to the 88 octets of out. A refusal writes nothing.
pub fn write_page(
    serial: SerialNumber,
    identifier: MessageIdentifier,
    dcs: u8,
    number: u32,
    packet: &[u8],
    out: &mut [u8],
) -> Result<WrittenPart, Refusal>
    ensures { written (told result) out.new ≡ write_page serial.0 identifier.0 dcs packet.now number out.old }
{
    let total = page::due(identifier, number, packet, out.len())?;
    let length = page::write(serial, identifier, dcs, total, number, packet, out);
    Ok(WrittenPart { total, length })
}
