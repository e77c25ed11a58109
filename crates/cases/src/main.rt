#![tactic(auto)]
// The examples of 01: for each its letter, a space, and the refusal number of its last call or 0. An example that says more than the number
// is held to it, and prints `differs` if the library does otherwise.
mod answers;
mod parts;
mod take;

use crate::answers::Expected;
use std::io;

// The line of one example.
fn line(rt: HostRuntime, letter: u8, number: u8) -> io::Result<()> {
    let letter = letter as char;
    if number == answers::DIFFERS {
        return println!(rt; "{letter} differs");
    }
    println!(rt; "{letter} {number}")
}

// 02 70 00 M, but with this low octet of CPL and this CHL.
fn single(cpl: u8, chl: u8) -> u8 {
    let mut ud = *b"\x02\x70\x00\x00\x0E\x0D\x00\x00\x00\x00\xB0\x00\x10\x00\x00\x00\x00\x00\x00";
    ud[4] = cpl;
    ud[5] = chl;
    take::message(&ud, Expected::Ended)
}

// The first n octets of 05 00 03 2A total 02.
fn header(total: u8, n: usize, expected: Expected) -> u8 {
    let ud = [0x05, 0x00, 0x03, 0x2A, total, 0x02];
    take::message(skelmarix::first_octets(&ud, n), expected)
}

// 07 00 03 2A 00 01 70 00 M.
fn total_of_none() -> u8 {
    let ud =
        b"\x07\x00\x03\x2A\x00\x01\x70\x00\x00\x0E\x0D\x00\x00\x00\x00\xB0\x00\x10\x00\x00\x00\x00\x00\x00";
    take::message(ud, Expected::Ended)
}

// Examples a to j: a message each.
fn messages(rt: HostRuntime) -> io::Result<()> {
    line(rt, b'a', single(0x0E, 0x0D))?;
    line(rt, b'b', single(0x0F, 0x0D))?;
    line(rt, b'c', single(0x0E, 0x0C))?;
    line(rt, b'd', single(0x0E, 0x0E))?;
    line(rt, b'e', header(2, 0, Expected::Ended))?;
    line(rt, b'f', take::message(&[0x00], Expected::Ended))?;
    line(rt, b'g', header(2, 5, Expected::Ended))?;
    line(rt, b'h', header(2, 6, answers::second(2, 0)))?;
    line(rt, b'i', total_of_none())?;
    line(rt, b'j', header(0x11, 6, Expected::Ended))
}

// Examples m to p: pages.
fn pages(rt: HostRuntime) -> io::Result<()> {
    line(rt, b'm', take::page(0x23, answers::second(3, 82)))?;
    line(rt, b'n', take::page(0x30, Expected::Ended))?;
    line(rt, b'o', take::page(0x32, Expected::Ended))?;
    line(rt, b'p', take::too_short())
}

// Every line, in the order of 01.
fn main(rt: HostRuntime) -> io::Result<()> {
    messages(rt)?;
    line(rt, b'k', parts::one_or_two())?;
    line(rt, b'l', parts::sixteen())?;
    line(rt, b'L', parts::too_long())?;
    pages(rt)?;
    line(rt, b'q', take::displaced())
}
