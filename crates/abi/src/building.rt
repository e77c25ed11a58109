// Building packets, and the octets of their checksums. The fields come as octets in the packet's order.
ghost use Rattle.std.specs.Prelude.{◌≡◌, not, eqb};
ghost use Rattle.types.specs.declared.Kind.TheVariants.{Command, Response};
ghost use Rattle.packet.specs.Packets.{plain, ciphered, ciphered_command, built, checksummed};
ghost use Rattle.heard.specs.Given.{clear_given, tar_given, command_given, response_given};
ghost use Rattle.heard.specs.Heard.{heard_written};

use heard::{CLEAR_FIELDS, COMMAND_FIELDS, RESPONSE_FIELDS, TAR_FIELDS, hear, parts};

// Builds a plain command.
#[unsafe(no_mangle)]
pub extern "C" fn skm_build_command(
    fields: &[u8; COMMAND_FIELDS],
    check: &[u8],
    data: &[u8],
    out: &mut [u8],
    length: &mut usize,
) -> u32
    ensures { ((result, length.new), out.new) ≡ heard_written (built Command (plain (command_given fields.now) check.now «data».now) out.old) }
{
    let front = parts::command_in(fields);
    let w = skelmarix::build_command(front.clear, front.cntr, front.pcntr, check, data, out);
    hear::written(w, length)
}

// Builds a ciphered command.
#[unsafe(no_mangle)]
pub extern "C" fn skm_build_ciphered_command(
    clear: &[u8; CLEAR_FIELDS],
    header: u16,
    opaque: &[u8],
    out: &mut [u8],
    length: &mut usize,
) -> u32
    ensures { ((result, length.new), out.new) ≡ heard_written (built Command (ciphered (clear_given clear.now) header opaque.now) out.old) }
{
    let w = skelmarix::build_ciphered_command(parts::clear_in(clear), header, opaque, out);
    hear::written(w, length)
}

// Builds a plain response.
#[unsafe(no_mangle)]
pub extern "C" fn skm_build_response(
    fields: &[u8; RESPONSE_FIELDS],
    check: &[u8],
    data: &[u8],
    out: &mut [u8],
    length: &mut usize,
) -> u32
    ensures { ((result, length.new), out.new) ≡ heard_written (built Response (plain (response_given fields.now) check.now «data».now) out.old) }
{
    let front = parts::response_in(fields);
    let w = skelmarix::build_response(
        front.tar,
        front.cntr,
        front.pcntr,
        front.status,
        check,
        data,
        out,
    );
    hear::written(w, length)
}

// Builds a ciphered response.
#[unsafe(no_mangle)]
pub extern "C" fn skm_build_ciphered_response(
    tar: &[u8; TAR_FIELDS],
    header: u16,
    opaque: &[u8],
    out: &mut [u8],
    length: &mut usize,
) -> u32
    ensures { ((result, length.new), out.new) ≡ heard_written (built Response (ciphered (tar_given tar.now) header opaque.now) out.old) }
{
    let w = skelmarix::build_ciphered_response(parts::tar_in(tar), header, opaque, out);
    hear::written(w, length)
}

// The octets that the checksum of a command covers.
#[unsafe(no_mangle)]
pub extern "C" fn skm_command_checksum(packet: &[u8], out: &mut [u8], length: &mut usize) -> u32
    ensures { ((result, length.new), out.new) ≡ heard_written (checksummed Command (ciphered_command packet.now) packet.now out.old) }
{
    let w = skelmarix::command_checksum(packet, out);
    hear::written(w, length)
}

// The octets that the checksum of a response covers; the caller says whether it is ciphered: any number but 0.
#[unsafe(no_mangle)]
pub extern "C" fn skm_response_checksum(
    packet: &[u8],
    ciphered: u32,
    out: &mut [u8],
    length: &mut usize,
) -> u32
    ensures { ((result, length.new), out.new) ≡ heard_written (checksummed Response (not (eqb ciphered 0)) packet.now out.old) }
{
    let w = skelmarix::response_checksum(packet, ciphered != 0, out);
    hear::written(w, length)
}
