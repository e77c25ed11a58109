#![tactic(auto)]
// Building a packet into a lent buffer. Its head, the lengths and the fields that every packet of its kind and body has, is made as one array;
// then head, check field and data, or head and opaque octets, are put one behind the other.
ghost use Rattle.std.specs.Prelude.{◌≡◌, ◌∷◌, ◌++◌, ◌+◌, ◌-◌, ◌%◌, ◌≤◌, length, get_or, drop, ltb, leb};
ghost use Rattle.octets.specs.Octets.{pair_of, placed, fits_at, after_put};
ghost use Rattle.types.specs.Refusals.{gives, lent, writes, told_written};
ghost use Rattle.packet.specs.Packets.{before, least, plain, ciphered, most_octets, packet_from, built};
ghost use Rattle.packet.specs.Told.{tar_octets, clear_octets, command_fixed, response_fixed};
ghost use Rattle.build.specs.Within.{against_octet, outside, told_ruling, ruled, tried};

use packet::layout;
use types::{Clear, Cntr, Kind, PACKET_OCTETS, Refusal, Tar};

// Whether a body is plain or ciphered against SPI, whose first octet is the first behind the lengths of a command.
fn against(kind: Kind, first: u8, ciphered: bool) -> bool
    ensures { result ≡ against_octet kind first ciphered }
{
    match kind {
        Kind::Command => layout::differ(layout::cipher_bit(first), ciphered),
        Kind::Response => false,
    }
}

// Whether the header length or the opaque octets of a ciphered body are out of bounds.
pub fn outside(kind: Kind, header: usize, opaque: usize) -> bool
    ensures { result ≡ outside kind header opaque }
{
    header < layout::least(kind) || 255 < header || opaque < header - layout::before(kind)
}

// Whether a head and two runs behind it are more than a packet may have. They are compared one after the other, since the sum of two lengths
// and a head might not fit.
fn over(head: usize, front: usize, back: usize) -> bool
    requires { head ≤ 16 }
    ensures { result ≡ ltb most_octets (head + (front + back)) }
{
    PACKET_OCTETS - head < front || PACKET_OCTETS - head - front < back
}

// The refusals of fields in their order, whatever carries them: a buffer of another length than is wanted, the body against SPI, the header
// length, the check field against SPI, more octets than are carried.
pub fn rule(
    kind: Kind,
    wanted: usize,
    buffer: usize,
    first: u8,
    ciphered: bool,
    misfit: bool,
    unchecked: bool,
    over: bool,
) -> Result<(), Refusal>
    ensures { told_ruling result ≡ ruled wanted buffer (against_octet kind first ciphered) misfit unchecked over (gives 0) }
{
    if buffer != wanted {
        return Err(Refusal::BufferOrRecord);
    }
    if against(kind, first, ciphered) {
        return Err(Refusal::CipherMismatch);
    }
    if misfit {
        return Err(Refusal::PacketHeader);
    }
    if unchecked {
        return Err(Refusal::CheckMismatch);
    }
    if over {
        return Err(Refusal::PacketTooLong);
    }
    Ok(())
}

// Writes the two lengths of a packet of `size` octets over the first three octets of its head.
fn set_lengths(head: &mut [u8], size: usize, header: usize)
    requires { (3 ≤ length head.old) × (2 ≤ size) × (size ≤ 2142) }
    ensures { head.new ≡ (pair_of (size - 2)).0 ∷ (pair_of (size - 2)).1 ∷ header % 256 ∷ drop 3 head.old }
{
    let cpl = octets::pair_of((size - 2) as u16);
    let lengths = [cpl.0, cpl.1, (header % 256) as u8];
    octets::put(&lengths, head, 0);
}

// Whether three runs of octets fit into a buffer from a place on. They are compared one after the other, since the sum of three lengths might not
// fit.
fn fit(buffer: usize, at: usize, head: usize, front: usize, back: usize) -> bool
    ensures { result ≡ leb (at + (head + (front + back))) buffer }
{
    buffer
        .checked_sub(at)
        .and_then(|room| room.checked_sub(head))
        .and_then(|room| room.checked_sub(front))
        .is_some_and(|room| back <= room)
}

// Puts three runs of octets that fit one behind the other into the buffer, from a place on.
fn fill(head: &[u8], front: &[u8], back: &[u8], out: &mut [u8], at: usize)
    requires { at + (length head.now + (length front.now + length back.now)) ≤ length out.old }
    ensures { out.new ≡ placed out.old at (head.now ++ (front.now ++ back.now)) }
{
    let next = at + head.len();
    let last = next + front.len();
    octets::put(head, out, at);
    octets::put(front, out, next);
    octets::put(back, out, last);
}

// Puts three runs of octets one behind the other into the buffer, from a place on, and says whether they fit; if they do not, it stays as it was.
pub fn put_runs(head: &[u8], front: &[u8], back: &[u8], out: &mut [u8], at: usize) -> bool
    ensures value { result ≡ fits_at out.old at (head.now ++ (front.now ++ back.now)) }
    ensures out_after { out.new ≡ after_put out.old at (head.now ++ (front.now ++ back.now)) }
{
    if !fit(out.len(), at, head.len(), front.len(), back.len()) {
        return false;
    }
    fill(head, front, back, out, at);
    true
}

// Writes a packet whose head has room for the lengths in front, and says how many octets it has.
fn write(header: usize, head: &mut [u8], front: &[u8], back: &[u8], out: &mut [u8]) -> usize
    requires { (3 ≤ length head.old) × (length head.old + (length front.now + length back.now) ≤ 2142) × (length out.old ≡ 2142) }
    ensures { lent (gives result) out.new ≡ writes (gives (packet_from (header % 256) (drop 3 head.old ++ (front.now ++ back.now)))) out.old }
{
    let size = head.len() + (front.len() + back.len());
    set_lengths(head, size, header);
    fill(head, front, back, out, 0);
    size
}

// Builds either body: if nothing refuses it, the packet is written. A header length that does not fit is refused as a misfit.
fn build(
    kind: Kind,
    ciphered: bool,
    misfit: bool,
    unchecked: bool,
    header: usize,
    head: &mut [u8],
    front: &[u8],
    back: &[u8],
    out: &mut [u8],
) -> Result<usize, Refusal>
    requires { (4 ≤ length head.old) × (length head.old ≤ 16) }
    ensures { lent (told_written result) out.new ≡ tried (against_octet kind (get_or head.old 3 0) ciphered) misfit unchecked (packet_from (header % 256) (drop 3 head.old ++ (front.now ++ back.now))) out.old }
{
    let long = over(head.len(), front.len(), back.len());
    rule(
        kind,
        PACKET_OCTETS,
        out.len(),
        head[3],
        ciphered,
        misfit,
        unchecked,
        long,
    )?;
    Ok(write(header, head, front, back, out))
}

// Builds a plain body behind the fixed fields in the head.
fn build_plain(
    kind: Kind,
    head: &mut [u8],
    check: &[u8],
    secured: &[u8],
    out: &mut [u8],
) -> Result<usize, Refusal>
    requires { length head.old ≡ 3 + least kind }
    ensures { lent (told_written result) out.new ≡ built kind (plain (drop 3 head.old) check.now secured.now) out.old }
{
    let least = layout::least(kind);
    let misfit = 255 - least < check.len();
    let unchecked = layout::against_bits(kind, head[3], check.len());
    build(
        kind,
        false,
        misfit,
        unchecked,
        least + check.len(),
        head,
        check,
        secured,
        out,
    )
}

// Builds a ciphered body behind the fields in the clear in the head.
fn build_ciphered(
    kind: Kind,
    head: &mut [u8],
    header: u16,
    opaque: &[u8],
    out: &mut [u8],
) -> Result<usize, Refusal>
    requires { length head.old ≡ 3 + before kind }
    ensures { lent (told_written result) out.new ≡ built kind (ciphered (drop 3 head.old) header opaque.now) out.old }
{
    let size = usize::from(header);
    let misfit = outside(kind, size, opaque.len());
    build(kind, true, misfit, false, size, head, opaque, &[], out)
}

// Builds a plain command: refused 1, 10, 11, 15 or 12, or how many octets it has.
pub fn build_command(
    clear: Clear,
    cntr: Cntr,
    pcntr: u8,
    check: &[u8],
    data: &[u8],
    out: &mut [u8],
) -> Result<usize, Refusal>
    ensures { lent (told_written result) out.new ≡ built Kind.Command (plain (command_fixed clear cntr pcntr) check.now «data».now) out.old }
{
    let spi = clear.spi;
    let tar = clear.tar;
    let mut head = [
        0, 0, 0, spi.0, spi.1, clear.kic, clear.kid, tar.0, tar.1, tar.2, cntr.0, cntr.1, cntr.2,
        cntr.3, cntr.4, pcntr,
    ];
    build_plain(Kind::Command, &mut head, check, data, out)
}

// Builds a ciphered command, whose header length counts in octets that are not seen here.
pub fn build_ciphered_command(
    clear: Clear,
    header: u16,
    opaque: &[u8],
    out: &mut [u8],
) -> Result<usize, Refusal>
    ensures { lent (told_written result) out.new ≡ built Kind.Command (ciphered (clear_octets clear) header opaque.now) out.old }
{
    let spi = clear.spi;
    let tar = clear.tar;
    let mut head = [
        0, 0, 0, spi.0, spi.1, clear.kic, clear.kid, tar.0, tar.1, tar.2,
    ];
    build_ciphered(Kind::Command, &mut head, header, opaque, out)
}

// Builds a plain response: refused 1, 11 or 12, or how many octets it has.
pub fn build_response(
    tar: Tar,
    cntr: Cntr,
    pcntr: u8,
    status: u8,
    check: &[u8],
    data: &[u8],
    out: &mut [u8],
) -> Result<usize, Refusal>
    ensures { lent (told_written result) out.new ≡ built Kind.Response (plain (response_fixed tar cntr pcntr status) check.now «data».now) out.old }
{
    let mut head = [
        0, 0, 0, tar.0, tar.1, tar.2, cntr.0, cntr.1, cntr.2, cntr.3, cntr.4, pcntr, status,
    ];
    build_plain(Kind::Response, &mut head, check, data, out)
}

// Builds a ciphered response.
pub fn build_ciphered_response(
    tar: Tar,
    header: u16,
    opaque: &[u8],
    out: &mut [u8],
) -> Result<usize, Refusal>
    ensures { lent (told_written result) out.new ≡ built Kind.Response (ciphered (tar_octets tar) header opaque.now) out.old }
{
    let mut head = [0, 0, 0, tar.0, tar.1, tar.2];
    build_ciphered(Kind::Response, &mut head, header, opaque, out)
}
