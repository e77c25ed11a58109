// Lines on building: a packet, or a USSD string.
ghost use Rattle.std.specs.Prelude.{◌≤◌};

use skelmarix::{first_octets, own_octets};
use types::{Clear, Refusal};
use values::fields::{cntr_of, octet, tar_of};
use words::table;

fn clear_of(fields: &[u8]) -> Clear {
    Clear {
        spi: types::Spi(octet(fields, 0), octet(fields, 1)),
        kic: octet(fields, 2),
        kid: octet(fields, 3),
        tar: tar_of(own_octets(fields, 4)),
    }
}

// SPI, KIC, KID, TAR, CNTR, PCNTR, CHECK and DATA, which begins at `data`; of a USSD string behind its PFI.
fn plain_command(ussd: bool, fields: &[u8], data: usize, out: &mut [u8]) -> Result<usize, Refusal> {
    let rest = own_octets(fields, ussd as usize);
    let clear = clear_of(rest);
    let cntr = cntr_of(own_octets(rest, 7));
    let pcntr = octet(rest, 12);
    let before = own_octets(first_octets(fields, data), ussd as usize);
    let check = own_octets(before, 13);
    let secured = own_octets(fields, data);
    if ussd {
        return skelmarix::write_ussd(octet(fields, 0), clear, cntr, pcntr, check, secured, out);
    }
    skelmarix::build_command(clear, cntr, pcntr, check, secured, out)
}

// TAR, CNTR, PCNTR, STATUS, CHECK and DATA, which begins at `data`.
fn plain_response(fields: &[u8], data: usize, out: &mut [u8]) -> Result<usize, Refusal> {
    let check = own_octets(first_octets(fields, data), 10);
    skelmarix::build_response(
        tar_of(fields),
        cntr_of(own_octets(fields, 3)),
        octet(fields, 8),
        octet(fields, 9),
        check,
        own_octets(fields, data),
        out,
    )
}

// A header length for the library, which takes 16 bits: a larger one is as wrong as 65,535 is.
fn narrow(n: u64) -> u16 {
    if n < 65535 { n as u16 } else { 65535 }
}

// SPI, KIC, KID, TAR and the opaque octets; of a USSD string behind its PFI.
fn ciphered_command(
    ussd: bool,
    fields: &[u8],
    header: u64,
    out: &mut [u8],
) -> Result<usize, Refusal> {
    let rest = own_octets(fields, ussd as usize);
    let clear = clear_of(rest);
    let opaque = own_octets(rest, 7);
    if ussd {
        return skelmarix::write_ciphered_ussd(octet(fields, 0), clear, narrow(header), opaque, out);
    }
    skelmarix::build_ciphered_command(clear, narrow(header), opaque, out)
}

fn ciphered_response(fields: &[u8], header: u64, out: &mut [u8]) -> Result<usize, Refusal> {
    let opaque = own_octets(fields, 3);
    skelmarix::build_ciphered_response(tar_of(fields), narrow(header), opaque, out)
}

// Which word of a row has the number that building needs: behind a plain body's CHECK the data begins. A USSD string has a word more, its PFI.
fn place(row: usize) -> usize
    ensures { result ≤ 7 }
{
    if row == table::BUILD_COMMAND {
        return 6;
    }
    if row == table::BUILD_CIPHERED_RESPONSE {
        return 1;
    }
    if row == table::WRITE_USSD {
        return 7;
    }
    if row == table::WRITE_CIPHERED_USSD {
        5
    } else {
        4
    }
}

// Builds what a line asks for, with that number: where the data of a plain body begins, or the header length of a ciphered one.
pub(crate) fn build(l: words::line::Line, fields: &[u8], out: &mut [u8]) -> Result<usize, Refusal> {
    let values = l.values;
    let n = values[place(l.row)];
    let row = l.row;
    if (row == table::BUILD_COMMAND) | (row == table::WRITE_USSD) {
        return plain_command(row == table::WRITE_USSD, fields, n as usize, out);
    }
    if (row == table::BUILD_CIPHERED_COMMAND) | (row == table::WRITE_CIPHERED_USSD) {
        return ciphered_command(row == table::WRITE_CIPHERED_USSD, fields, n, out);
    }
    if row == table::BUILD_RESPONSE {
        return plain_response(fields, n as usize, out);
    }
    ciphered_response(fields, n, out)
}
