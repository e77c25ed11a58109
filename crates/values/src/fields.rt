// What is in the octets of a line that is understood: its fields reach as far as they are asked for.
ghost use Rattle.std.specs.Prelude.{◌≡◌, get_or};
ghost use Rattle.values.specs.Fields.{kind_by, sender_of, tar_of, cntr_of};

use skelmarix::{number_of, own_octets};
use types::{Cntr, Kind, Tar};

// The octet at a place.
pub fn octet(fields: &[u8], i: usize) -> u8
    ensures { result ≡ get_or fields.now i 0 }
{
    if i < fields.len() { fields[i] } else { 0 }
}

// A kind by a flag.
pub fn kind_of(response: bool) -> Kind
    ensures { result ≡ kind_by response }
{
    if response {
        Kind::Response
    } else {
        Kind::Command
    }
}

// The 16-bit number at a place.
pub fn pair_at(fields: &[u8], i: usize) -> u16 {
    let rest = own_octets(fields, i);
    number_of(octet(rest, 0), octet(rest, 1))
}

// The sender: the first four octets.
pub fn sender_of(fields: &[u8]) -> u32
    ensures { result ≡ sender_of fields.now }
{
    let high = number_of(octet(fields, 0), octet(fields, 1));
    let low = number_of(octet(fields, 2), octet(fields, 3));
    high as u32 * 65536 + low as u32
}

// A TAR: the first three octets.
pub fn tar_of(fields: &[u8]) -> Tar
    ensures { result ≡ tar_of fields.now }
{
    Tar(octet(fields, 0), octet(fields, 1), octet(fields, 2))
}

// A CNTR: the first five.
pub fn cntr_of(fields: &[u8]) -> Cntr
    ensures { result ≡ cntr_of fields.now }
{
    Cntr(
        octet(fields, 0),
        octet(fields, 1),
        octet(fields, 2),
        octet(fields, 3),
        octet(fields, 4),
    )
}

// A number of a line, which has 32 bits.
pub fn narrow(n: u64) -> u32 {
    (n % 4294967296) as u32
}
