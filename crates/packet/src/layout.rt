// The layout of a kind, said once for everything that reads or builds a packet, and the few numbers that every packet has.
ghost use Rattle.std.specs.Prelude.{◌≡◌, ◌+◌, ◌≤◌};
ghost use Rattle.packet.specs.Packets.{before, least, cipher_bit, differ, against_bits};

use types::Kind;

// How many octets stand before CNTR, counted behind the two lengths; CNTR and PCNTR lie before the check field.
pub fn before(kind: Kind) -> usize
    ensures value { result ≡ before kind }
    ensures kind_bound { before kind + 6 ≤ least kind }
{
    match kind {
        Kind::Command => 7,
        Kind::Response => 3,
    }
}

// How many octets stand before the check field: the least header length.
pub fn least(kind: Kind) -> usize
    ensures value { result ≡ least kind }
    ensures kind_bound { least kind ≤ 13 }
{
    match kind {
        Kind::Command => 13,
        Kind::Response => 10,
    }
}

// Whether an SPI whose first octet this is asks for ciphering.
pub fn cipher_bit(spi: u8) -> bool
    ensures { result ≡ cipher_bit spi }
{
    spi / 4 % 2 == 1
}

// Whether just one of two holds.
pub fn differ(a: bool, b: bool) -> bool
    ensures { result ≡ differ a b }
{
    a != b
}

// Whether the check bits of an SPI whose first octet this is are against a check field of so many octets. A response has no SPI.
pub fn against_bits(kind: Kind, spi: u8, check: usize) -> bool
    ensures { result ≡ against_bits kind spi check }
{
    match kind {
        Kind::Command => differ(spi % 4 == 0, check == 0),
        Kind::Response => false,
    }
}
