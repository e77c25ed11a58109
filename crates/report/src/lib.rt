#![tactic(auto)]
// Report first, data afterwards (02, [1] and [12]; 000, 4.1; 003): what goes out when a response is there, what is in the delivery report, and
// whether a response says that another follows.
ghost use Rattle.std.specs.Prelude.{◌≡◌, ◌+◌, ◌≤◌, length};
ghost use Rattle.octets.specs.Octets.{placed};
ghost use Rattle.types.specs.Refusals.{gives, refuse◌when◌otherwise◌};
ghost use Rattle.packet.specs.Laws.{PacketLengths};
ghost use Rattle.report.specs.Reporting.{asked, reserved, no_capacity, report_of, announcing, going_out, known_edition, announced_by, reported, writes_report, write_report, told_outgoing, announces_another, response_announces, told_announcing};

use packet::read;
use types::{Kind, OLD_EDITION, Outgoing, PRESENT_EDITION, Refusal, Spi, USER_DATA_OCTETS};

// The status of a response that only says that another follows: in the present edition "actual response data to be sent using SMS-SUBMIT", in the
// old one "more time".
const RESPONSE_FOLLOWS: u8 = 0x0B;

const MORE_TIME: u8 = 0x08;

// The octets of a report with such a response: the least that a report must hold.
const LEAST_REPORT: usize = 16;

// ---- tests
// Whether a report cannot have so many octets.
fn no_capacity(capacity: usize) -> bool
    ensures { result ≡ no_capacity capacity }
{
    (capacity < LEAST_REPORT) | (USER_DATA_OCTETS < capacity)
}

// Whether SPI asks for a response of this status.
fn is_asked(spi: u8, status: u8) -> bool
    ensures { result ≡ asked spi status }
{
    (spi % 4 == 1) | ((spi % 4 == 2) & (status != 0))
}

// Whether there is such an edition.
fn is_known(edition: u32) -> bool
    ensures { result ≡ known_edition edition }
{
    (edition == OLD_EDITION) | (edition == PRESENT_EDITION)
}

// The status by which an edition announces a response.
fn announced_by(edition: u32) -> u8
    ensures { result ≡ announced_by edition }
{
    if edition == OLD_EDITION {
        return MORE_TIME;
    }
    RESPONSE_FOLLOWS
}

// Whether a response of this status says that another follows.
fn announces_another(status: u8) -> bool
    ensures { result ≡ announces_another status }
{
    (status == RESPONSE_FOLLOWS) | (status == MORE_TIME)
}

// ---- writing
// Puts the header of a report and the response behind it, and says how many octets they are.
fn put_report(response: &[u8], out: &mut [u8]) -> usize
    requires { 3 + length response.now ≤ length out.old }
    ensures value { result ≡ length (report_of response.now) }
    ensures out_after { out.new ≡ placed out.old 0 (report_of response.now) }
{
    octets::put(b"\x02\x71\x00", out, 0);
    octets::put(response, out, 3);
    3 + response.len()
}

// Puts a report with a response that has the TAR, CNTR and PCNTR of the one given, this status, and nothing else; says how many octets they are.
fn put_announcement(status: u8, response: &[u8], out: &mut [u8]) -> usize
    requires { (13 ≤ length response.now) × (length out.old ≡ 140) }
    ensures value { result ≡ length (report_of (announcing status response.now)) }
    ensures out_after { out.new ≡ placed out.old 0 (report_of (announcing status response.now)) }
{
    octets::put(b"\x02\x71\x00\x00\x0B\x0A", out, 0);
    octets::put(&response[3..12], out, 6);
    octets::put(&[status], out, 15);
    LEAST_REPORT
}

// ---- what goes out
// Of a response that can be read, and a report of a capacity that it can have; `status` is what announces a response that follows.
fn send(
    status: u8,
    spi: u8,
    capacity: usize,
    response: &[u8],
    out: &mut [u8],
) -> Result<Outgoing, Refusal>
    requires packet_lengths { (PacketLengths Kind.Response response.now) × (length response.now ≤ 2142) }
    requires out_len { (length out.old ≡ 140) × (capacity ≤ 140) }
    ensures { reported (told_outgoing result) out.new ≡ writes_report (refuse 17 when reserved spi otherwise gives (going_out status spi capacity response.now)) out.old }
{
    if spi % 4 == 3 {
        return Err(Refusal::ReservedSpi);
    }
    if !is_asked(spi, response[12]) {
        return Ok(Outgoing::Nothing);
    }
    if spi / 32 % 2 == 1 {
        return Ok(Outgoing::Submit);
    }
    if 3 + response.len() <= capacity {
        let length = put_report(response, out);
        return Ok(Outgoing::Report { length });
    }
    let length = put_announcement(status, response, out);
    Ok(Outgoing::Announcement { length })
}

// Says what goes out of a complete plain response to a command with this SPI, by way of a delivery report that holds so many octets, from a card
// that follows this edition. Writes the report to the start of the 140 octets in out, whose rest stays as it was. A ciphered response is taken for
// plain. A refusal writes nothing.
pub fn write_report(
    spi: Spi,
    capacity: usize,
    edition: u32,
    response: &[u8],
    out: &mut [u8],
) -> Result<Outgoing, Refusal>
    ensures { reported (told_outgoing result) out.new ≡ write_report edition spi.1 capacity response.now out.old }
{
    if out.len() != USER_DATA_OCTETS {
        return Err(Refusal::BufferOrRecord);
    }
    if no_capacity(capacity) {
        return Err(Refusal::ReportCapacity);
    }
    if !is_known(edition) {
        return Err(Refusal::UnknownEdition);
    }
    read::judge(Kind::Response, false, response)?;
    send(announced_by(edition), spi.1, capacity, response, out)
}

// ---- the receiver
// Whether a plain response says that another follows, in either edition: by its status. A ciphered response is taken for plain.
pub fn response_announces(response: &[u8]) -> Result<bool, Refusal>
    ensures { told_announcing result ≡ response_announces response.now }
{
    read::judge(Kind::Response, false, response)?;
    Ok(announces_another(response[12]))
}
