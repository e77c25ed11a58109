// What the caller's numbers and octets are for the library.
ghost use Rattle.std.specs.Prelude.{◌≡◌, [], ◌∷◌, get_or};
ghost use Rattle.layout.specs.Layout.{kind_in};
ghost use Rattle.packet.specs.Told.{tar_octets, clear_octets, counter_octets, command_fixed, response_fixed};
ghost use Rattle.heard.specs.Given.{octet_in, tar_given, clear_given, command_given, response_given};

use packet::behind::octet;
use types::{Clear, Cntr, Kind, Spi, Tar};

// A kind: 0 is a command, every other number a response.
pub fn kind_in(kind: u32) -> Kind
    ensures { result ≡ kind_in kind }
{
    if kind == 0 {
        return Kind::Command;
    }
    Kind::Response
}

// A number that has to fit an octet: every greater one counts as 0.
pub fn octet_in(n: u32) -> u8
    ensures { result ≡ octet_in n }
{
    if 255 < n {
        return 0;
    }
    n as u8
}

// The fields of a plain command and of a plain response up to the check field.
#[derive(Clone, Copy)]
pub struct CommandFront {
    pub clear: Clear,
    pub cntr: Cntr,
    pub pcntr: u8,
}

#[derive(Clone, Copy)]
pub struct ResponseFront {
    pub tar: Tar,
    pub cntr: Cntr,
    pub pcntr: u8,
    pub status: u8,
}

// The octets of an array as these fields, and as those of a ciphered packet.
pub fn tar_in(o: &[u8]) -> Tar
    ensures { tar_octets result ≡ tar_given o.now }
{
    Tar(octet(o, 0), octet(o, 1), octet(o, 2))
}

pub fn clear_in(o: &[u8]) -> Clear
    ensures { clear_octets result ≡ clear_given o.now }
{
    Clear {
        spi: Spi(octet(o, 0), octet(o, 1)),
        kic: octet(o, 2),
        kid: octet(o, 3),
        tar: Tar(octet(o, 4), octet(o, 5), octet(o, 6)),
    }
}

fn cntr_in(o: &[u8], a: usize, b: usize, c: usize, d: usize, e: usize) -> Cntr
    ensures { counter_octets result [] ≡ get_or o.now a 0 ∷ get_or o.now b 0 ∷ get_or o.now c 0 ∷ get_or o.now d 0 ∷ get_or o.now e 0 ∷ [] }
{
    Cntr(
        octet(o, a),
        octet(o, b),
        octet(o, c),
        octet(o, d),
        octet(o, e),
    )
}

pub fn command_in(o: &[u8]) -> CommandFront
    ensures { command_fixed result.clear result.cntr result.pcntr ≡ command_given o.now }
{
    CommandFront {
        clear: clear_in(o),
        cntr: cntr_in(o, 7, 8, 9, 10, 11),
        pcntr: octet(o, 12),
    }
}

pub fn response_in(o: &[u8]) -> ResponseFront
    ensures { response_fixed result.tar result.cntr result.pcntr result.status ≡ response_given o.now }
{
    ResponseFront {
        tar: tar_in(o),
        cntr: cntr_in(o, 3, 4, 5, 6, 7),
        pcntr: octet(o, 8),
        status: octet(o, 9),
    }
}
