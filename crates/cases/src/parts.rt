// Examples that split packets: k, l and L.
use crate::answers;
use skelmarix::{Kind, USER_DATA_OCTETS, WrittenPart, first_octets, pair_of, write_message};
use types::Refusal;

// Writes one part of a command packet of CPL + 2 octets.
fn write(width: u32, number: u32, cpl: u16) -> Result<WrittenPart, Refusal> {
    let lengths = pair_of(cpl);
    let mut packet = [0x0D; 2143];
    packet[0] = lengths.0;
    packet[1] = lengths.1;
    let mut ud = [answers::BEFORE; USER_DATA_OCTETS];
    write_message(
        Kind::Command,
        width,
        0x2A,
        number,
        first_octets(&packet, cpl as usize + 2),
        &mut ud,
    )
}

// The refusal number of an answer; 0 if a part was written, one of so many, and of this length.
fn number(written: Result<WrittenPart, Refusal>, parts: usize, size: usize) -> u8 {
    match written {
        Err(refusal) => refusal.number(),
        Ok(WrittenPart { total, length }) => {
            answers::held_to((total == parts) & (length == size), 0)
        }
    }
}

// 0 if 138 octets are split in two parts, of these many octets of user data.
fn two(width: u32, first: usize, second: usize) -> bool {
    let one = number(write(width, 1, 136), 2, first);
    let other = number(write(width, 2, 136), 2, second);
    (one == 0) & (other == 0)
}

// Example k: 137 octets go in one part, 138 in 132 + 6, and with 16-bit references in 131 + 7.
pub fn one_or_two() -> u8 {
    let narrow = two(8, 8 + 132, 6 + 6);
    let wide = two(16, 9 + 131, 7 + 7);
    answers::held_to(narrow & wide, number(write(8, 1, 135), 1, 3 + 137))
}

// Example l: 2,142 octets go in sixteen parts.
pub fn sixteen() -> u8 {
    number(write(8, 1, 2140), 16, 8 + 132)
}

// Example L: 2,143 octets go in none.
pub fn too_long() -> u8 {
    number(write(8, 1, 2141), 0, 0)
}
