#![tactic(auto)]
// Writing a command as a USSD string into a lent buffer (02, [7]): PFI, identifier and lengths, and the fields behind them. The rules are those of
// `ussd`.
ghost use Rattle.std.specs.Prelude.{◌≡◌, ◌∷◌, ◌++◌, ◌+◌, ◌≤◌, length, get_or};
ghost use Rattle.octets.specs.Octets.{placed};
ghost use Rattle.types.specs.Refusals.{gives, lent, writes, told_written};
ghost use Rattle.packet.specs.Packets.{plain, ciphered};
ghost use Rattle.packet.specs.Told.{clear_octets, command_fixed};
ghost use Rattle.build.specs.Within.{against_octet};
ghost use Rattle.ussd.specs.Ussd.{length_octets, um_from, written_ussd};
ghost use Rattle.ussd_write.specs.Within.{lead_octets, over_um, tried_ussd};

use packet::layout;
use types::{Clear, Cntr, Kind, Refusal, UM_OCTETS, USSD_OCTETS};
use ussd::um;

// ---- lengths
// How many octets a length is coded in.
fn coded_size(n: usize) -> usize
    ensures { (result ≡ length (length_octets n)) × (result ≤ 2) }
{
    if n <= 127 {
        return 1;
    }
    2
}

// Puts a length, as it is coded, at a place of the buffer; answers with the place behind it.
fn put_length(n: usize, out: &mut [u8], at: usize) -> usize
    requires { (n ≤ 255) × (at + 2 ≤ length out.old) }
    ensures value { (result ≡ at + length (length_octets n)) × (result ≤ at + 2) }
    ensures out_after { out.new ≡ placed out.old at (length_octets n) }
{
    if n <= 127 {
        let one = [n as u8];
        octets::put(&one, out, at);
        return at + 1;
    }
    let two = [0x81, n as u8];
    octets::put(&two, out, at);
    at + 2
}

// The most that CPL counts: a UM has the identifier and two octets of CPL before it.
const MOST_CPL: usize = UM_OCTETS - 3;

// Whether a UM with a header of this length, and three runs of octets behind its lengths, is more than can be carried. They are compared one after
// the other, since their sum might not fit.
fn over(header: usize, fixed: usize, front: usize, back: usize) -> bool
    requires { fixed ≤ 13 }
    ensures { result ≡ over_um header (fixed + (front + back)) }
{
    let room = MOST_CPL - coded_size(header) - fixed;
    if room < front {
        return true;
    }
    room - front < back
}

// ---- writing
// Puts what is before the fields at the buffer's start: PFI, identifier, CPL and CHL. Answers with the place behind them.
fn put_lead(pfi: u8, cpl: usize, header: usize, out: &mut [u8]) -> usize
    requires { (cpl ≤ 255) × (header ≤ 255) × (length out.old ≡ 160) }
    ensures value { (result ≡ length (lead_octets pfi cpl header)) × (result ≤ 6) }
    ensures out_after { out.new ≡ placed out.old 0 (lead_octets pfi cpl header) }
{
    let start = [pfi, um::COMMAND_IDENTIFIER];
    octets::put(&start, out, 0);
    let at = put_length(cpl, out, 2);
    put_length(header, out, at)
}

// Writes a string that fits, and says how many octets it has.
fn write(pfi: u8, header: usize, fixed: &[u8], front: &[u8], back: &[u8], out: &mut [u8]) -> usize
    requires header_bound { (header ≤ 255) × (length out.old ≡ 160) }
    requires back_len_bound { length (length_octets header) + (length fixed.now + (length front.now + length back.now)) ≤ 156 }
    ensures { lent (gives result) out.new ≡ writes (gives (pfi ∷ um_from header (fixed.now ++ (front.now ++ back.now)))) out.old }
{
    let rest = fixed.len() + (front.len() + back.len());
    let at = put_lead(pfi, coded_size(header) + rest, header, out);
    build::put_runs(fixed, front, back, out, at);
    at + rest
}

// Writes either body: if nothing refuses it, the string is written. A header length that does not fit is refused as a misfit.
fn write_fields(
    pfi: u8,
    ciphered: bool,
    misfit: bool,
    unchecked: bool,
    header: u8,
    fixed: &[u8],
    front: &[u8],
    back: &[u8],
    out: &mut [u8],
) -> Result<usize, Refusal>
    requires { (1 ≤ length fixed.now) × (length fixed.now ≤ 13) }
    ensures { lent (told_written result) out.new ≡ tried_ussd pfi (against_octet Kind.Command (get_or fixed.now 0 0) ciphered) misfit unchecked (um_from header (fixed.now ++ (front.now ++ back.now))) out.old }
{
    let size = octets::wide(header);
    let long = over(size, fixed.len(), front.len(), back.len());
    build::rule(
        Kind::Command,
        USSD_OCTETS,
        out.len(),
        fixed[0],
        ciphered,
        misfit,
        unchecked,
        long,
    )?;
    Ok(write(pfi, size, fixed, front, back, out))
}

// Writes a plain body behind its fixed fields.
fn write_plain(
    pfi: u8,
    fixed: &[u8],
    check: &[u8],
    secured: &[u8],
    out: &mut [u8],
) -> Result<usize, Refusal>
    requires { length fixed.now ≡ 13 }
    ensures { lent (told_written result) out.new ≡ written_ussd pfi (plain fixed.now check.now secured.now) out.old }
{
    let misfit = 242 < check.len();
    let unchecked = layout::against_bits(Kind::Command, fixed[0], check.len());
    let header = ((13 + check.len()) % 256) as u8;
    write_fields(
        pfi, false, misfit, unchecked, header, fixed, check, secured, out,
    )
}

// Writes a ciphered body behind the fields in the clear.
fn write_opaque(
    pfi: u8,
    fixed: &[u8],
    header: u16,
    opaque: &[u8],
    out: &mut [u8],
) -> Result<usize, Refusal>
    requires { length fixed.now ≡ 7 }
    ensures { lent (told_written result) out.new ≡ written_ussd pfi (ciphered fixed.now header opaque.now) out.old }
{
    let misfit = build::outside(Kind::Command, header as usize, opaque.len());
    let octet = (header % 256) as u8;
    write_fields(
        pfi,
        true,
        misfit,
        false,
        octet,
        fixed,
        opaque,
        &opaque[0..0],
        out,
    )
}

// Writes a plain command as a USSD string: refused 1, 10, 11, 15 or 12, or how many octets it has. It is sent with the DCS of binary data, 96.
pub fn write_ussd(
    pfi: u8,
    clear: Clear,
    cntr: Cntr,
    pcntr: u8,
    check: &[u8],
    data: &[u8],
    out: &mut [u8],
) -> Result<usize, Refusal>
    ensures { lent (told_written result) out.new ≡ written_ussd pfi (plain (command_fixed clear cntr pcntr) check.now «data».now) out.old }
{
    let spi = clear.spi;
    let tar = clear.tar;
    let fixed = [
        spi.0, spi.1, clear.kic, clear.kid, tar.0, tar.1, tar.2, cntr.0, cntr.1, cntr.2, cntr.3,
        cntr.4, pcntr,
    ];
    write_plain(pfi, &fixed, check, data, out)
}

// Writes a ciphered command as a USSD string; its header length counts in octets that are not seen here.
pub fn write_ciphered_ussd(
    pfi: u8,
    clear: Clear,
    header: u16,
    opaque: &[u8],
    out: &mut [u8],
) -> Result<usize, Refusal>
    ensures { lent (told_written result) out.new ≡ written_ussd pfi (ciphered (clear_octets clear) header opaque.now) out.old }
{
    let spi = clear.spi;
    let tar = clear.tar;
    let fixed = [spi.0, spi.1, clear.kic, clear.kid, tar.0, tar.1, tar.2];
    write_opaque(pfi, &fixed, header, opaque, out)
}
