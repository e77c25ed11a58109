// Reading a USSD string: its fields, and the parts of the lent string that hold them.
ghost use Rattle.std.specs.Prelude.{◌≡◌, ◌+◌, drop};
ghost use Rattle.types.specs.Refusals.{gives};
ghost use Rattle.packet.specs.Told.{told_command};
ghost use Rattle.packet.specs.Judging.{told_judged};
ghost use Rattle.ussd.specs.Ussd.{um_chl, um_start, addressed, readable_ussd, read_ussd, shown_ussd_data, shown_ussd_check, shown_ussd_opaque};
ghost use Rattle.ussd.specs.Within.{string_opened};

use crate::um;
use packet::{behind, show};
use types::{Command, Kind, Refusal, USSD_DCS, USSD_OCTETS};

// Whether a string comes with the DCS of binary data, and begins with this PFI and the identifier of a command.
fn is_addressed(pfi: u8, dcs: u8, string: &[u8]) -> bool
    ensures { result ≡ addressed pfi dcs string.now }
{
    let same = string.starts_with(&[pfi, um::COMMAND_IDENTIFIER]);
    (dcs == USSD_DCS) & same
}

// The UM of a string.
fn um_of(string: &[u8]) -> &[u8]
    ensures { result.now ≡ drop 1 string.now }
{
    behind::past(string, 1)
}

// What is asked of a string before what is behind its lengths: 2, 5, 9, or its header length.
fn open(pfi: u8, dcs: u8, string: &[u8]) -> Result<usize, Refusal>
    ensures { told_judged result ≡ string_opened pfi dcs string.now (gives (um_chl (drop 1 string.now))) }
{
    if USSD_OCTETS < string.len() {
        return Err(Refusal::InputLength);
    }
    if !is_addressed(pfi, dcs, string) {
        return Err(Refusal::WrongIdentifier);
    }
    let um = um_of(string);
    if !um::formed(um) {
        return Err(Refusal::MalformedPacket);
    }
    Ok(octets::wide(um::header_of(um)))
}

// Whether a string can be read: 2, 5, 9, then 15.
fn judge(pfi: u8, dcs: u8, string: &[u8]) -> Result<usize, Refusal>
    ensures { told_judged result ≡ readable_ussd pfi dcs string.now (gives (um_chl (drop 1 string.now))) }
{
    let header = open(pfi, dcs, string)?;
    let rest = um::behind_um(um_of(string));
    if behind::against_check(Kind::Command, behind::ciphered(rest), header, rest) {
        return Err(Refusal::CheckMismatch);
    }
    Ok(header)
}

// Where what is behind the lengths begins in a string.
fn start_in(string: &[u8]) -> usize
    ensures { result ≡ 1 + um_start (drop 1 string.now) }
{
    1 + um::start_of(um_of(string))
}

// Reads a string that came with this DCS, for the application of this PFI: the fields of its command, or refusal 2, 5, 9 or 15. PFI is compared
// with the string's first octet; its bits are not judged.
pub fn read_ussd(pfi: u8, dcs: u8, string: &[u8]) -> Result<Command, Refusal>
    ensures { told_command result ≡ read_ussd pfi dcs string.now }
{
    open(pfi, dcs, string)?;
    let um = um_of(string);
    let rest = um::behind_um(um);
    behind::command(behind::ciphered(rest), um::header_of(um), rest)
}

// ---- parts of the lent string; of one that is refused or has the other body, the empty part at its start
pub fn ussd_data(pfi: u8, dcs: u8, string: &[u8]) -> &[u8]
    ensures { result.now ≡ shown_ussd_data pfi dcs string.now }
{
    let ciphered = um::ciphered(um_of(string));
    show::data_of(
        Kind::Command,
        ciphered,
        judge(pfi, dcs, string),
        start_in(string),
        string,
    )
}

pub fn ussd_check(pfi: u8, dcs: u8, string: &[u8]) -> &[u8]
    ensures { result.now ≡ shown_ussd_check pfi dcs string.now }
{
    let ciphered = um::ciphered(um_of(string));
    show::check_of(
        Kind::Command,
        ciphered,
        judge(pfi, dcs, string),
        start_in(string),
        string,
    )
}

pub fn ussd_opaque(pfi: u8, dcs: u8, string: &[u8]) -> &[u8]
    ensures { result.now ≡ shown_ussd_opaque pfi dcs string.now }
{
    let ciphered = um::ciphered(um_of(string));
    show::opaque_of(
        Kind::Command,
        ciphered,
        judge(pfi, dcs, string),
        start_in(string),
        string,
    )
}
