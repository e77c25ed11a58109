// The octets that the checksum of a UM covers.
ghost use Rattle.std.specs.Prelude.{◌≡◌};
ghost use Rattle.types.specs.Refusals.{lent, told_written};
ghost use Rattle.ussd.specs.Ussd.{ussd_checksummed};

use crate::um;
use types::{CHECKSUM_OCTETS, Kind, Refusal};

// Collects them at the start of the buffer: the identifier and the lengths as they are coded, the fields before the check field, and the data.
// Refused 1, 9, 15 or 10, or how many octets they are.
pub fn ussd_checksum(um: &[u8], out: &mut [u8]) -> Result<usize, Refusal>
    ensures { lent (told_written result) out.new ≡ ussd_checksummed um.now out.old }
{
    if out.len() != CHECKSUM_OCTETS {
        return Err(Refusal::BufferOrRecord);
    }
    if !um::is_um(um) {
        return Err(Refusal::MalformedPacket);
    }
    let header = octets::wide(um::header_of(um));
    checksum::checksum_from(
        Kind::Command,
        um::ciphered(um),
        um::start_of(um),
        header,
        um,
        out,
    )
}
