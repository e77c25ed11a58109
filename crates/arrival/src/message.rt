// What the user data of a short message brings (01, "User data header" and "Numbers of refusal"): 2, 3, 4, 5, 6 in this order.
ghost use Rattle.std.specs.Prelude.{◌≡◌};
ghost use Rattle.arrival.specs.Arrivals.{told_arrival};
ghost use Rattle.arrival.specs.Message.{alone, own, foreign, opens, misplaced, message_key, judged, read_message};

use header::{Concatenation, Cursor, Seen, walk};
use types::{
    Arrival, Key, Kind, MessageIdentifier, PARTS, Refusal, SerialNumber, USER_DATA_OCTETS,
};

// Whether a message with this concatenation is alone: the element is ignored, or says one of one.
fn is_alone(c: Concatenation) -> bool
    ensures { result ≡ alone c }
{
    (c.total == 0) | (c.number == 0) | (c.total < c.number) | (c.total == 1)
}

// Whether it is a single message or part 1, which must bear the packet identifier.
fn is_opening(c: Concatenation) -> bool
    ensures { result ≡ opens c }
{
    is_alone(c) | (c.number == 1)
}

// Whether the packet identifier of the record's kind is there, and the other kind's.
fn has_own(kind: Kind, seen: Seen) -> bool
    ensures { result ≡ own kind seen }
{
    match kind {
        Kind::Command => seen.command,
        Kind::Response => seen.response,
    }
}

fn has_foreign(kind: Kind, seen: Seen) -> bool
    ensures { result ≡ foreign kind seen }
{
    match kind {
        Kind::Command => seen.response,
        Kind::Response => seen.command,
    }
}

// Whether a packet identifier is missing, out of place or of the other kind.
fn is_misplaced(kind: Kind, seen: Seen) -> bool
    ensures { result ≡ misplaced kind seen }
{
    let c = seen.concatenation;
    has_foreign(kind, seen) | (is_opening(c) != has_own(kind, seen))
}

// The key of the series that a part belongs to: what pages use of a key is zero.
fn key_of(sender: u32, c: Concatenation) -> Key
    ensures { result ≡ message_key sender c }
{
    Key {
        sender,
        width: c.width,
        reference: c.reference,
        serial: SerialNumber(0),
        identifier: MessageIdentifier(0),
    }
}

// What a header that could be read says of its message, whose own octets begin at `start`.
fn judge(kind: Kind, sender: u32, start: usize, seen: Seen) -> Result<Arrival, Refusal>
    ensures { told_arrival result ≡ judged kind sender start seen }
{
    if seen.wrong {
        return Err(Refusal::HeaderElement);
    }
    if is_misplaced(kind, seen) {
        return Err(Refusal::WrongIdentifier);
    }
    let c = seen.concatenation;
    if is_alone(c) {
        return Ok(Arrival::Single { start });
    }
    if PARTS < usize::from(c.total) {
        return Err(Refusal::TooManyParts);
    }
    Ok(Arrival::Part {
        key: key_of(sender, c),
        total: c.total,
        number: c.number,
        start,
    })
}

// What the user data of a message from `sender` brings. The whole header is read before anything in it is judged.
pub fn read_message(kind: Kind, sender: u32, ud: &[u8]) -> Result<Arrival, Refusal>
    ensures { told_arrival result ≡ read_message kind sender ud.now }
{
    if USER_DATA_OCTETS < ud.len() {
        return Err(Refusal::InputLength);
    }
    // By tests of the length, since with a slice pattern and `get` each message takes eight instructions more.
    if ud.len() == 0 {
        return Err(Refusal::HeaderOverrun);
    }
    let n = usize::from(ud[0]);
    if ud.len() <= n {
        return Err(Refusal::HeaderOverrun);
    }
    let start = n + 1;
    let Some(seen) = walk(&ud[1..start], Cursor { at: 0 }, Seen::nothing()) else {
        return Err(Refusal::HeaderOverrun);
    };
    judge(kind, sender, start, seen)
}
