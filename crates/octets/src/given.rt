// The octets that an answer is about, at the start of the buffer that was lent: for every answer and every buffer, so that a caller needs
// no proof of the length's bound.
ghost use Rattle.std.specs.Prelude.{◌≡◌, take};
ghost use Rattle.octets.specs.Given.{packet_length, written_length, part_length};

use crate::up_to;
use types::{Answer, Refusal, WrittenPart};

// The packet that taking has put at the start of the output; of another answer, the empty part.
pub fn packet_in<'a>(answer: Result<Answer, Refusal>, out: &'a [u8]) -> &'a [u8]
    ensures { result.now ≡ take (packet_length answer) out.now }
{
    let length = match answer {
        Ok(Answer::Packet { length }) => length,
        Ok(Answer::Kept { .. } | Answer::HeldAlready { .. }) | Err(_) => 0,
    };
    up_to(out, length)
}

// What building or collecting has written at the start of the buffer; of a refusal, the empty part.
pub fn written_in<'a>(written: Result<usize, Refusal>, buffer: &'a [u8]) -> &'a [u8]
    ensures { result.now ≡ take (written_length written) buffer.now }
{
    up_to(buffer, written.unwrap_or(0))
}

// The user data or the page that splitting has written; of a refusal, the empty part.
pub fn part_in<'a>(part: Result<WrittenPart, Refusal>, buffer: &'a [u8]) -> &'a [u8]
    ensures { result.now ≡ take (part_length part) buffer.now }
{
    up_to(buffer, part.map_or(0, |p| p.length))
}
