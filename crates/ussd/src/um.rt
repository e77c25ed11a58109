// A UM: its two lengths, and where what is behind them begins.
ghost use Rattle.std.specs.Prelude.{◌≡◌, ◌≤◌};
ghost use Rattle.ussd.specs.Ussd.{length_size, length_value, length_formed, from_cpl, from_chl, um_behind, um_chl, um_start, um_formed, ciphered_um, is_um};
ghost use Rattle.ussd.specs.Within.{lengths_right};

use packet::behind;
use types::UM_OCTETS;

// The identifier of a command packet.
pub const COMMAND_IDENTIFIER: u8 = 0x03;

// ---- a length at the start of octets
// How many octets it has.
fn length_size(coded: &[u8]) -> usize
    ensures { (result ≡ length_size coded.now) × (result ≤ 2) }
{
    if behind::octet(coded, 0) <= 127 {
        return 1;
    }
    2
}

// What it is.
fn length_value(coded: &[u8]) -> u8
    ensures { result ≡ length_value coded.now }
{
    let first = behind::octet(coded, 0);
    if first <= 127 {
        return first;
    }
    behind::octet(coded, 1)
}

// Whether it is one octet up to 127, or 81 and one octet from 128 on.
fn length_formed(coded: &[u8]) -> bool
    ensures { result ≡ length_formed coded.now }
{
    let first = behind::octet(coded, 0);
    let second = behind::octet(coded, 1);
    ((1 <= coded.len()) & (first <= 127)) | ((first == 0x81) & (128 <= second))
}

// ---- the parts of a UM
fn from_cpl(um: &[u8]) -> &[u8]
    ensures { result.now ≡ from_cpl um.now }
{
    behind::past(um, 1)
}

fn from_chl(um: &[u8]) -> &[u8]
    ensures { result.now ≡ from_chl um.now }
{
    let coded = from_cpl(um);
    behind::past(coded, length_size(coded))
}

// What is behind the lengths.
pub(crate) fn behind_um(um: &[u8]) -> &[u8]
    ensures { result.now ≡ um_behind um.now }
{
    let coded = from_chl(um);
    behind::past(coded, length_size(coded))
}

// Where that begins.
pub(crate) fn start_of(um: &[u8]) -> usize
    ensures { (result ≡ um_start um.now) × (result ≤ 5) }
{
    1 + length_size(from_cpl(um)) + length_size(from_chl(um))
}

// CHL.
pub(crate) fn header_of(um: &[u8]) -> u8
    ensures { result ≡ um_chl um.now }
{
    length_value(from_chl(um))
}

// Whether the body is ciphered, by SPI.
pub(crate) fn ciphered(um: &[u8]) -> bool
    ensures { result ≡ ciphered_um um.now }
{
    behind::ciphered(behind_um(um))
}

// ---- well formed
// A length at the start of octets, as a number to count with.
fn count(coded: &[u8]) -> usize
    ensures { (result ≡ length_value coded.now) × (result ≤ 255) }
{
    octets::wide(length_value(coded))
}

// Whether both lengths are well formed, CPL counts all from CHL's first octet on, and CHL has room for the fixed fields and is within that.
fn lengths_right(cpl: &[u8], chl: &[u8]) -> bool
    ensures { result ≡ lengths_right cpl.now chl.now }
{
    let whole = count(cpl);
    let header = count(chl);
    let size = length_size(chl);
    length_formed(cpl)
        & (whole == chl.len())
        & length_formed(chl)
        & (13 <= header)
        & (header + size <= whole)
}

// Whether a UM is well formed, its identifier not judged.
pub(crate) fn formed(um: &[u8]) -> bool
    ensures { result ≡ um_formed um.now }
{
    lengths_right(from_cpl(um), from_chl(um))
}

// Whether octets are a UM: the identifier first, not too many, and well formed.
pub(crate) fn is_um(um: &[u8]) -> bool
    ensures { result ≡ is_um um.now }
{
    (behind::octet(um, 0) == COMMAND_IDENTIFIER) & (um.len() <= UM_OCTETS) & formed(um)
}
