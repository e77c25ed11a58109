// USSD strings: a command read, its parts shown, written, and the octets of its checksum.
ghost use Rattle.std.specs.Prelude.{◌≡◌};
ghost use Rattle.types.specs.declared.Kind.TheVariants.{Command};
ghost use Rattle.packet.specs.Packets.{plain, ciphered};
ghost use Rattle.ussd.specs.Ussd.{read_ussd, written_ussd, ussd_checksummed};
ghost use Rattle.heard.specs.Given.{clear_given, command_given};
ghost use Rattle.heard.specs.Heard.{heard_parsed, heard_written};

use heard::{CLEAR_FIELDS, COMMAND_FIELDS, fields, hear, parts};

// Reads a string that came with this DCS, for the application of this PFI.
#[unsafe(no_mangle)]
pub extern "C" fn skm_read_ussd(
    pfi: u8,
    dcs: u8,
    string: &[u8],
    fields: &mut [u8; COMMAND_FIELDS],
    body: &mut [usize; 3],
) -> u32
    ensures { (result, (fields.new, body.new)) ≡ heard_parsed Command (read_ussd pfi dcs string.now) }
{
    let a = skelmarix::read_ussd(pfi, dcs, string);
    fields::command(a, fields, body)
}

// Writes a plain command as a string.
#[unsafe(no_mangle)]
pub extern "C" fn skm_write_ussd(
    pfi: u8,
    fields: &[u8; COMMAND_FIELDS],
    check: &[u8],
    data: &[u8],
    out: &mut [u8],
    length: &mut usize,
) -> u32
    ensures { ((result, length.new), out.new) ≡ heard_written (written_ussd pfi (plain (command_given fields.now) check.now «data».now) out.old) }
{
    let front = parts::command_in(fields);
    let w = skelmarix::write_ussd(pfi, front.clear, front.cntr, front.pcntr, check, data, out);
    hear::written(w, length)
}

// Writes a ciphered command as a string.
#[unsafe(no_mangle)]
pub extern "C" fn skm_write_ciphered_ussd(
    pfi: u8,
    clear: &[u8; CLEAR_FIELDS],
    header: u16,
    opaque: &[u8],
    out: &mut [u8],
    length: &mut usize,
) -> u32
    ensures { ((result, length.new), out.new) ≡ heard_written (written_ussd pfi (ciphered (clear_given clear.now) header opaque.now) out.old) }
{
    let w = skelmarix::write_ciphered_ussd(pfi, parts::clear_in(clear), header, opaque, out);
    hear::written(w, length)
}

// The octets that the checksum of a UM covers.
#[unsafe(no_mangle)]
pub extern "C" fn skm_ussd_checksum(um: &[u8], out: &mut [u8], length: &mut usize) -> u32
    ensures { ((result, length.new), out.new) ≡ heard_written (ussd_checksummed um.now out.old) }
{
    let w = skelmarix::ussd_checksum(um, out);
    hear::written(w, length)
}
