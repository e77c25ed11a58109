// Reading packets: their fields, and where the parts are in the caller's packet.
ghost use Rattle.std.specs.Prelude.{◌≡◌, not, eqb};
ghost use Rattle.packet.specs.Packets.{well_formed, ciphered_command, parsing};
ghost use Rattle.layout.specs.Layout.{kind_in};
ghost use Rattle.heard.specs.Heard.{heard_parsed, heard_places, heard_test};

use heard::{COMMAND_FIELDS, RESPONSE_FIELDS, fields, hear, parts, places};
use packet::read;
use types::Kind;

// Whether a packet is well formed: 0, or 9.
#[unsafe(no_mangle)]
pub extern "C" fn skm_packet_formed(kind: u32, packet: &[u8]) -> u32
    ensures { result ≡ heard_test 9 (well_formed (kind_in kind) packet.now) }
{
    let ok = skelmarix::packet_formed(parts::kind_in(kind), packet);
    hear::test(ok, 9)
}

// Reads a command.
#[unsafe(no_mangle)]
pub extern "C" fn skm_parse_command(
    packet: &[u8],
    fields: &mut [u8; COMMAND_FIELDS],
    body: &mut [usize; 3],
) -> u32
    ensures { (result, (fields.new, body.new)) ≡ heard_parsed Kind.Command (parsing Kind.Command (ciphered_command packet.now) packet.now) }
{
    let a = skelmarix::parse_command(packet);
    fields::command(a, fields, body)
}

// Reads a response.
#[unsafe(no_mangle)]
pub extern "C" fn skm_parse_response(
    packet: &[u8],
    ciphered: u32,
    fields: &mut [u8; RESPONSE_FIELDS],
    body: &mut [usize; 3],
) -> u32
    ensures { (result, (fields.new, body.new)) ≡ heard_parsed Kind.Response (parsing Kind.Response (not (eqb ciphered 0)) packet.now) }
{
    let a = skelmarix::parse_response(packet, ciphered != 0);
    fields::response(a, fields, body)
}

// Where check field and data of a command are, or the opaque octets of a ciphered one.
#[unsafe(no_mangle)]
pub extern "C" fn skm_show_command(packet: &[u8], places: &mut [usize; 6]) -> u32
    ensures { (result, places.new) ≡ heard_places Kind.Command (ciphered_command packet.now) packet.now }
{
    places::shown(
        Kind::Command,
        read::ciphered_command(packet),
        packet,
        places,
    )
}

// The same of a response.
#[unsafe(no_mangle)]
pub extern "C" fn skm_show_response(packet: &[u8], ciphered: u32, places: &mut [usize; 6]) -> u32
    ensures { (result, places.new) ≡ heard_places Kind.Response (not (eqb ciphered 0)) packet.now }
{
    places::shown(Kind::Response, ciphered != 0, packet, places)
}
