// Where the parts of a packet are in it, as numbers that the caller lends.
ghost use Rattle.std.specs.Prelude.{◌≡◌, true, false, ◌+◌};
ghost use Rattle.packet.specs.Packets.{before, chl, fields_of};
ghost use Rattle.heard.specs.Heard.{places_of, heard_places};

use crate::hear;
use packet::{behind, read};
use types::Kind;

// Where the octets behind a header of this length begin.
fn past_header(header: u8) -> usize
    ensures { result ≡ 3 + header }
{
    3 + header as usize
}

// Where the opaque octets of a ciphered body begin.
fn opaque_place(kind: Kind) -> usize
    ensures { result ≡ 3 + before kind }
{
    match kind {
        Kind::Command => 10,
        Kind::Response => 6,
    }
}

fn put_plain(kind: Kind, packet: &[u8], places: &mut [usize; 6])
    ensures { places.new ≡ places_of kind 3 (chl packet.now) (fields_of kind false packet.now) }
{
    let header = read::header_of(packet);
    let size = octets::wide(header);
    let rest = read::behind_lengths(packet);
    let check = behind::check_field(kind, size, rest);
    let data = behind::past(rest, size);
    *places = [
        3 + packet::layout::least(kind),
        check.len(),
        past_header(header),
        data.len(),
        0,
        0,
    ];
}

fn put_opaque(kind: Kind, packet: &[u8], places: &mut [usize; 6])
    ensures { places.new ≡ places_of kind 3 (chl packet.now) (fields_of kind true packet.now) }
{
    let rest = read::behind_lengths(packet);
    let opaque = behind::past(rest, packet::layout::before(kind));
    *places = [0, 0, 0, 0, opaque_place(kind), opaque.len()];
}

// Puts the places of the parts that the body has.
fn put_places(kind: Kind, ciphered: bool, packet: &[u8], places: &mut [usize; 6])
    ensures { places.new ≡ places_of kind 3 (chl packet.now) (fields_of kind ciphered packet.now) }
{
    if ciphered {
        put_opaque(kind, packet, places);
        return;
    }
    put_plain(kind, packet, places);
}

// The places, or the number of the refusal and zeros.
pub fn shown(kind: Kind, ciphered: bool, packet: &[u8], places: &mut [usize; 6]) -> u32
    ensures { (result, places.new) ≡ heard_places kind ciphered packet.now }
{
    let judged = read::judge(kind, ciphered, packet);
    match judged {
        Err(why) => {
            *places = [0, 0, 0, 0, 0, 0];
            hear::refusal(why)
        }
        Ok(_) => {
            put_places(kind, ciphered, packet, places);
            0
        }
    }
}
