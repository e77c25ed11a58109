// Writing user data: which parts a packet has, the header of each, and its octets (01, "Splitting").
ghost use Rattle.std.specs.Prelude.{◌≡◌, cond, [], ◌∷◌, ◌+◌, ◌≤◌, ◌<◌, length, slice_index, take, eqb};
ghost use Rattle.split.specs.Splitting.{parts, part_from, part_octets, identifier_element, header_of, user_data, most_split};
ghost use Rattle.split.specs.Within.{HeaderPut, Numbered, Writable, Standing, told_due, judging};

use crate::part;
use arrival::keys::{reference_fits, room};
use types::{Kind, PARTS, Refusal, USER_DATA_OCTETS};

// The most octets that go in one message: what the three of its header leave.
const MOST_SINGLE: usize = USER_DATA_OCTETS - 3;

// ---- how many parts
// How many octets sixteen parts hold.
fn most_split(width: u32) -> usize
    ensures value { result ≡ most_split width }
    ensures upper_bound { result ≤ 2142 }
{
    room(width, 1) + (PARTS - 1) * room(width, 2)
}

// How many parts a packet of `size` octets has.
fn parts(width: u32, size: usize) -> usize
    requires { size ≤ 2142 }
    ensures { result ≡ parts width size }
{
    if size <= MOST_SINGLE {
        return 1;
    }
    let first = room(width, 1);
    let later = room(width, 2);
    1 + (size - first + later - 1) / later
}

// Every refusal of a call, in 01's order: 1, 13, 9, 12, 14. Nothing is written before it is known that there is none.
pub(crate) fn due(
    kind: Kind,
    width: u32,
    reference: u32,
    number: u32,
    packet: &[u8],
    size: usize,
) -> Result<usize, Refusal>
    ensures { told_due result ≡ judging kind width reference packet.now number size }
{
    if size != USER_DATA_OCTETS {
        return Err(Refusal::BufferOrRecord);
    }
    if !reference_fits(width, reference) {
        return Err(Refusal::ReferenceWidth);
    }
    if !packet::read::well_formed(kind, packet) {
        return Err(Refusal::MalformedPacket);
    }
    if most_split(width) < packet.len() {
        return Err(Refusal::PacketTooLong);
    }
    let total = parts(width, packet.len());
    if part::no_such_part(total, number) {
        return Err(Refusal::PartNumber);
    }
    Ok(total)
}

// ---- the header
// The packet identifier of a kind.
fn identifier(kind: Kind) -> u8
    ensures { result ∷ 0 ∷ [] ≡ identifier_element kind }
{
    match kind {
        Kind::Command => 0x70,
        Kind::Response => 0x71,
    }
}

// UDHL of a part of several, whose concatenation element is of this length: part 1 bears the packet identifier too.
fn udhl(element: u8, number: u8) -> u8
    requires { element ≤ 6 }
    ensures { (result ≡ element + cond (eqb number 1) 2 0) × (result ≤ element + 2) }
{
    if number == 1 {
        return element + 2;
    }
    element
}

// Puts the start of a header at the buffer's start: its first octet, and as many behind it as that says; answers with how many they are.
fn put_counted(header: &[u8], out: &mut [u8]) -> usize
    requires header_len { (slice_index header.now 0 < length header.now) × (length header.now ≤ 9) }
    requires out_len { length out.old ≡ 140 }
    ensures { HeaderPut (take (slice_index header.now 0 + 1) header.now) result out.old out.new }
{
    let end = header[0] as usize + 1;
    octets::put(&header[..end], out, 0);
    end
}

// The header of part `number` of `total`. The packet identifier is its end, which is not counted in a later part of several.
fn put_header(
    kind: Kind,
    width: u32,
    reference: u32,
    total: usize,
    number: u32,
    out: &mut [u8],
) -> usize
    requires { Numbered width reference total number (length out.old) }
    ensures { HeaderPut (header_of kind width reference total number) result out.old out.new }
{
    let id = identifier(kind);
    if total == 1 {
        return put_counted(&[0x02, id, 0x00], out);
    }
    let total = total as u8;
    let number = number as u8;
    if width == 16 {
        let pair = octets::pair_of(reference as u16);
        let count = udhl(6, number);
        return put_counted(
            &[count, 0x08, 0x04, pair.0, pair.1, total, number, id, 0x00],
            out,
        );
    }
    let count = udhl(5, number);
    put_counted(
        &[count, 0x00, 0x03, reference as u8, total, number, id, 0x00],
        out,
    )
}

// ---- the octets
// Where the octets of part `number` begin in the packet.
fn part_from(width: u32, number: u32) -> usize
    requires { (1 ≤ number) × (number ≤ 16) }
    ensures { result ≡ part_from width number }
{
    if number == 1 {
        return 0;
    }
    room(width, 1) + (number - 2) as usize * room(width, 2)
}

// The octets of part `number`: all of a packet that goes in one message.
fn part_of(width: u32, number: u32, packet: &[u8]) -> &[u8]
    requires { (1 ≤ number) × (number ≤ 16) × (part_from width number ≤ length packet.now) }
    ensures { result.now ≡ part_octets width packet.now number }
{
    if packet.len() <= MOST_SINGLE {
        return packet;
    }
    let from = part_from(width, number);
    part::cut(packet, from, room(width, number as usize))
}

// Writes the user data of part `number` of `total`, and says how long it is.
pub(crate) fn write(
    kind: Kind,
    width: u32,
    reference: u32,
    total: usize,
    number: u32,
    packet: &[u8],
    out: &mut [u8],
) -> usize
    requires { Writable width reference packet.now total number (length out.old) }
    ensures { Standing (user_data kind width reference packet.now number) result out.old out.new }
{
    let at = put_header(kind, width, reference, total, number, out);
    let own = part_of(width, number, packet);
    octets::put(own, out, at);
    at + own.len()
}
