#![tactic(auto)]
// The user data header (01, "User data header"): one element is read and then the rest in the same way, and what counts is noted on the way.
ghost use Rattle.std.specs.Prelude.{◌≡◌, length, drop};
ghost use Rattle.header.specs.Header.{item};
ghost use Rattle.header.specs.Reading.{first_element, narrow_in, wide_in, seen_of, nothing_seen, wrong_seen, concatenation_seen, command_seen, response_seen, added, walked, told_walked, seen_in, told_rest};

// What a concatenation element says: the width of its reference in bits, the reference, how many parts there are and which this is.
#[derive(Clone, Copy)]
pub struct Concatenation {
    pub width: u8,
    pub reference: u16,
    pub total: u8,
    pub number: u8,
}

// What the elements of a header say together.
#[derive(Clone, Copy)]
pub struct Seen {
    // an element that counts is of wrong length
    pub wrong: bool,
    // what the last concatenation element says; width and total are 0 if there is none
    pub concatenation: Concatenation,
    // the packet identifier of commands is there, and that of responses
    pub command: bool,
    pub response: bool,
}

// A reading position in a header.
#[derive(Clone, Copy)]
pub struct Cursor {
    pub at: usize,
}

// A whole element that stands at a reading position: its identifier, where its octets start and how many they are; next is past it.
#[derive(Clone, Copy)]
pub struct Element {
    pub id: u8,
    pub start: usize,
    pub len: usize,
    pub next: Cursor,
}

impl Cursor {
    // The element at the reading position; none if it runs past the end, as a lone identifier does and an element whose octets are not all there.
    pub fn element(self, h: &[u8]) -> Option<Element>
        ensures { result ≡ first_element self.at (drop self.at h.now) }
    {
        let at = self.at;
        if h.len() <= at {
            return None;
        }
        let second = at + 1;
        if h.len() <= second {
            return None;
        }
        let id = h[at];
        let len = h[second] as usize;
        let start = at + 2;
        if h.len() - start < len {
            return None;
        }
        Some(Element {
            id,
            start,
            len,
            next: Cursor { at: start + len },
        })
    }
}

// What an octet of reference says, and two octets of it, with the total and the number behind.
fn narrow(own: &[u8]) -> Concatenation
    requires { length own.now ≡ 3 }
    ensures { result ≡ narrow_in own.now }
{
    Concatenation {
        width: 8,
        reference: own[0] as u16,
        total: own[1],
        number: own[2],
    }
}

fn wide(own: &[u8]) -> Concatenation
    requires { length own.now ≡ 4 }
    ensures { result ≡ wide_in own.now }
{
    Concatenation {
        width: 16,
        reference: octets::number_of(own[0], own[1]),
        total: own[2],
        number: own[3],
    }
}

impl Seen {
    // What was seen, by its fields. An element more makes it anew by this call: if it were copied and one field of the copy changed, the compiler would
    // keep it in memory, with twice the code (docs/PROVING.md, "The stack of a walk").
    fn of(wrong: bool, concatenation: Concatenation, command: bool, response: bool) -> Self
        ensures { result ≡ seen_of wrong concatenation command response }
    {
        Seen {
            wrong,
            concatenation,
            command,
            response,
        }
    }

    // What is known of a header before its first element.
    pub fn nothing() -> Self
        ensures { result ≡ nothing_seen }
    {
        Seen {
            wrong: false,
            concatenation: Concatenation {
                width: 0,
                reference: 0,
                total: 0,
                number: 0,
            },
            command: false,
            response: false,
        }
    }

    // An element that counts is of wrong length: nothing else of it is noted, since the header is refused.
    fn misfit(self) -> Self
        ensures { result ≡ wrong_seen self }
    {
        Seen::of(true, self.concatenation, self.command, self.response)
    }

    // A concatenation element takes the place of an earlier one, of either width.
    fn concatenated(self, c: Concatenation) -> Self
        ensures { result ≡ concatenation_seen self c }
    {
        Seen::of(self.wrong, c, self.command, self.response)
    }

    // The packet identifier of commands, and that of responses: given again it says nothing new.
    fn commanded(self) -> Self
        ensures { result ≡ command_seen self }
    {
        Seen::of(self.wrong, self.concatenation, true, self.response)
    }

    fn responded(self) -> Self
        ensures { result ≡ response_seen self }
    {
        Seen::of(self.wrong, self.concatenation, self.command, true)
    }

    // One more element, with the octets that are its own. Any identifier but four is skipped.
    pub fn plus(self, id: u8, own: &[u8]) -> Self
        ensures { result ≡ added self (item id own.now) }
    {
        let n = own.len();
        match id {
            0x00 => {
                if n == 3 {
                    self.concatenated(narrow(own))
                } else {
                    self.misfit()
                }
            }
            0x08 => {
                if n == 4 {
                    self.concatenated(wide(own))
                } else {
                    self.misfit()
                }
            }
            0x70 => {
                if n == 0 {
                    self.commanded()
                } else {
                    self.misfit()
                }
            }
            0x71 => {
                if n == 0 {
                    self.responded()
                } else {
                    self.misfit()
                }
            }
            _ => self,
        }
    }
}

// What was seen, as it lies in what a walk was lent: three flags (an element of wrong length, the two packet identifiers), three octets (a
// concatenation's width, total and number), and its reference.
fn seen_in(flags: &[bool; 3], octets: &[u8; 3], reference: u16) -> Seen
    ensures { result ≡ seen_in flags.now octets.now reference }
{
    Seen {
        wrong: flags[0],
        concatenation: Concatenation {
            width: octets[0],
            reference,
            total: octets[1],
            number: octets[2],
        },
        command: flags[1],
        response: flags[2],
    }
}

// Lays down what was seen.
fn lay(seen: Seen, flags: &mut [bool; 3], octets: &mut [u8; 3], reference: &mut u16)
    ensures { seen_in flags.new octets.new reference.new ≡ seen }
{
    let c = seen.concatenation;
    *flags = [seen.wrong, seen.command, seen.response];
    *octets = [c.width, c.total, c.number];
    *reference = c.reference;
}

// Lays one more element, with the octets that are its own, to what was seen.
fn lay_more(id: u8, own: &[u8], flags: &mut [bool; 3], octets: &mut [u8; 3], reference: &mut u16)
    ensures { seen_in flags.new octets.new reference.new ≡ added (seen_in flags.old octets.old reference.old) (item id own.now) }
{
    let seen = seen_in(flags, octets, *reference);
    lay(seen.plus(id, own), flags, octets, reference);
}

// Reads one element and then the rest of the header in the same way: 0, or 3, the number of refusal, once one cannot be read. All that it is handed
// and answers fits a register, the header since it comes as a reference to the slice: so the compiler makes a loop of the recursion, and a card's
// stack does not grow with the elements (docs/PROVING.md, "The stack of a walk").
fn read_rest(
    h: &&[u8],
    cursor: Cursor,
    flags: &mut [bool; 3],
    octets: &mut [u8; 3],
    reference: &mut u16,
) -> u8
    ensures { told_rest result (seen_in flags.new octets.new reference.new) ≡ told_walked (walked h.now.now cursor.at (seen_in flags.old octets.old reference.old)) }
{
    let header = *h;
    let at = cursor.at;
    if header.len() <= at {
        return 0;
    }
    let Some(
        Element {
            id,
            start,
            next,
            ..
        },
    ) = cursor.element(header)
    else {
        return 3;
    };
    let end = next.at;
    lay_more(id, &header[start..end], flags, octets, reference);
    read_rest(h, next, flags, octets, reference)
}

// The elements from the cursor on: what they say together, on top of what was seen before.
pub fn walk(h: &[u8], cursor: Cursor, seen: Seen) -> Option<Seen>
    ensures { result ≡ walked h.now cursor.at seen }
{
    let mut flags = [false; 3];
    let mut octets = [0; 3];
    let mut reference = 0;
    lay(seen, &mut flags, &mut octets, &mut reference);
    let refusal = read_rest(&h, cursor, &mut flags, &mut octets, &mut reference);
    if refusal != 0 {
        return None;
    }
    Some(seen_in(&flags, &octets, reference))
}
