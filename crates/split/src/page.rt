// Writing a page: how many pages a packet has, the header of each, and its content (01, "Pages", "Splitting").
ghost use Rattle.std.specs.Prelude.{◌≡◌, ◌-◌, ◌*◌, ◌≤◌, length, take, drop};
ghost use Rattle.split.specs.Splitting.{pages, parameter, page_written};
ghost use Rattle.split.specs.Within.{HeaderPut, PageReady, Standing, told_due, judging_page, page_head};

use crate::part;
use arrival::keys::in_range;
use types::{Kind, MessageIdentifier, PAGE_CONTENT, PAGE_OCTETS, Refusal, SerialNumber};

// The most octets that go in pages: the total has four bits of the page parameter.
const MOST_PAGES: usize = 15 * PAGE_CONTENT;

// How many pages a packet of `size` octets has.
fn pages(size: usize) -> usize
    requires { size ≤ 1230 }
    ensures { result ≡ pages size }
{
    (size + PAGE_CONTENT - 1) / PAGE_CONTENT
}

// Every refusal of a call, in 01's order: 1, 5, 9, 12, 14. Nothing is written before it is known that there is none.
// The last three are tested as for user data; a shared test would take how to count the parts as a closure, and be no plainer.
pub(crate) fn due(
    identifier: MessageIdentifier,
    number: u32,
    packet: &[u8],
    size: usize,
) -> Result<usize, Refusal>
    ensures { told_due result ≡ judging_page identifier.0 packet.now number size }
{
    if size != PAGE_OCTETS {
        return Err(Refusal::BufferOrRecord);
    }
    if !in_range(identifier) {
        return Err(Refusal::WrongIdentifier);
    }
    if !packet::read::well_formed(Kind::Command, packet) {
        return Err(Refusal::MalformedPacket);
    }
    if MOST_PAGES < packet.len() {
        return Err(Refusal::PacketTooLong);
    }
    let total = pages(packet.len());
    if part::no_such_part(total, number) {
        return Err(Refusal::PartNumber);
    }
    Ok(total)
}

// The page parameter: the number in the high four bits, the total in the low ones.
fn parameter(total: usize, number: u32) -> u8
    requires { (total ≤ 15) × (number ≤ 15) }
    ensures { result ≡ parameter total number }
{
    number as u8 * 16 + total as u8
}

// The six octets of a page's header.
fn put_header(
    serial: SerialNumber,
    identifier: MessageIdentifier,
    dcs: u8,
    parameter: u8,
    out: &mut [u8],
)
    requires { length out.old ≡ 88 }
    ensures { HeaderPut (page_head serial.0 identifier.0 dcs parameter) 6 out.old out.new }
{
    let s = octets::pair_of(serial.0);
    let i = octets::pair_of(identifier.0);
    let header = [s.0, s.1, i.0, i.1, dcs, parameter];
    octets::put(&header, out, 0);
}

// The octets of the packet that page `number` holds.
fn own_octets(number: u32, packet: &[u8]) -> &[u8]
    requires { (1 ≤ number) × (number ≤ 15) × (82 * (number - 1) ≤ length packet.now) }
    ensures result_value { result.now ≡ take 82 (drop (82 * (number - 1)) packet.now) }
    ensures result_len_bound { length result.now ≤ 82 }
{
    let from = PAGE_CONTENT * (number - 1) as usize;
    part::cut(packet, from, PAGE_CONTENT)
}

// Writes page `number` of `total`, with 00 behind the end of the packet, and says how long a page is.
pub(crate) fn write(
    serial: SerialNumber,
    identifier: MessageIdentifier,
    dcs: u8,
    total: usize,
    number: u32,
    packet: &[u8],
    out: &mut [u8],
) -> usize
    requires { PageReady packet.now total number (length out.old) }
    ensures { Standing (page_written serial.0 identifier.0 dcs packet.now number) result out.old out.new }
{
    put_header(serial, identifier, dcs, parameter(total, number), out);
    let own = own_octets(number, packet);
    octets::put(own, out, 6);
    out[6 + own.len()..].fill(0);
    PAGE_OCTETS
}
