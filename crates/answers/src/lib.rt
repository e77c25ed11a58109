#![tactic(auto)]
// Answers as text: one writer of rows. What is printed is held to stored lines; a piece that does not fit is left out, so that every call is safe
// for any buffer.
pub mod record;

ghost use Rattle.std.specs.Prelude.{◌≡◌, ◌<◌};

use types::{Cntr, Spi, Tar};
use values::rows::{Buffer, Row, Value};

// ---- pieces
// Puts a piece at a place and says where the text then ends.
pub fn say(piece: &[u8], text: &mut [u8], at: usize) -> usize {
    let Some(end) = at.checked_add(piece.len()) else {
        return at;
    };
    let Some(place) = text.get_mut(at..end) else {
        return at;
    };
    place.copy_from_slice(piece);
    end
}

// The end of a line.
pub fn end(text: &mut [u8], at: usize) -> usize {
    say(b"\n", text, at)
}

// The digit of a value below 16, a capital from 10 on.
fn digit(v: u8) -> u8
    requires { v < 16 }
{
    if v < 10 { b'0' + v } else { b'A' + (v - 10) }
}

// Octets as digits, two each. They are put by pairs of places, so that many are put at once.
fn pairs(octets: &[u8], text: &mut [u8], at: usize) -> usize {
    let Some(rest) = text.get_mut(at..) else {
        return at;
    };
    let (places, _) = rest.as_chunks_mut::<2>();
    if places.len() < octets.len() {
        return at;
    }
    for (place, x) in places.iter_mut().zip(octets) {
        *place = [digit(*x / 16), digit(*x % 16)];
    }
    at + 2 * octets.len()
}

// Octets, `-` for none.
fn field(octets: &[u8], text: &mut [u8], at: usize) -> usize {
    if octets.is_empty() {
        return say(b"-", text, at);
    }
    pairs(octets, text, at)
}

// A number in decimal, with as few digits as hold it.
pub fn number(n: u64, text: &mut [u8], at: usize) -> usize {
    let mut figures = [b'0'; 20];
    let mut rest = n;
    for i in (0..20).rev() {
        figures[i] = b'0' + (rest % 10) as u8;
        rest /= 10;
        if rest == 0 {
            return say(&figures[i..], text, at);
        }
    }
    say(&figures, text, at)
}

// A blank and a number.
fn count(n: u64, text: &mut [u8], at: usize) -> usize {
    let at = say(b" ", text, at);
    number(n, text, at)
}

// So many octets from a place on; fewer if there are not so many.
fn part(octets: &[u8], from: usize, count: usize) -> &[u8] {
    let rest = octets.get(from..).unwrap_or(&[]);
    rest.get(..count).unwrap_or(rest)
}

// ---- a row
// The buffers that the values of a row are of.
#[derive(Clone, Copy)]
pub struct Buffers<'a> {
    pub first: &'a [u8],
    pub second: &'a [u8],
    pub third: &'a [u8],
}

impl<'a> Buffers<'a> {
    // One octet string for all three.
    pub fn all(octets: &'a [u8]) -> Buffers<'a>
        ensures { (result.first.now ≡ octets.now) × (result.second.now ≡ octets.now) × (result.third.now ≡ octets.now) }
    {
        Buffers {
            first: octets,
            second: octets,
            third: octets,
        }
    }

    fn octets(self, of: Buffer) -> &'a [u8] {
        match of {
            Buffer::First => self.first,
            Buffer::Second => self.second,
            Buffer::Third => self.third,
        }
    }
}

// A value behind a name.
fn value(v: Value, buffers: Buffers<'_>, text: &mut [u8], at: usize) -> usize {
    match v {
        Value::Octet(x) => pairs(&[x], text, at),
        Value::Pair(n) => pairs(&n.to_be_bytes(), text, at),
        Value::Sender(n) => pairs(&n.to_be_bytes(), text, at),
        Value::Spi(Spi(a, b)) => pairs(&[a, b], text, at),
        Value::Tar(Tar(a, b, c)) => pairs(&[a, b, c], text, at),
        Value::Cntr(Cntr(a, b, c, d, e)) => pairs(&[a, b, c, d, e], text, at),
        Value::Number(n) => number(n, text, at),
        Value::Name(name) => say(name.as_bytes(), text, at),
        Value::Whole(of) => field(buffers.octets(of), text, at),
        Value::Part { of, from, count } => field(part(buffers.octets(of), from, count), text, at),
        Value::Start { of, count } => {
            let at = number(count as u64, text, at);
            let at = say(b" ", text, at);
            field(part(buffers.octets(of), 0, count), text, at)
        }
    }
}

// Prints a row behind what stands in the text up to `at`, with octets of three buffers.
pub fn print(row: Row, buffers: Buffers<'_>, text: &mut [u8], at: usize) -> usize {
    let mut at = say(row.name.as_bytes(), text, at);
    for v in row.values.iter().flatten() {
        at = say(b" ", text, at);
        at = value(*v, buffers, text, at);
    }
    at
}

// `line N`, and what is the matter with the line.
pub fn trouble(line: u64, what: &[u8], text: &mut [u8], at: usize) -> usize {
    let at = say(b"line ", text, at);
    let at = number(line, text, at);
    let at = say(what, text, at);
    end(text, at)
}
