// What a line that was read means: which call takes its octets, how many slots it asks for, and whether its words can be meant together.
ghost use Rattle.std.specs.Prelude.{◌≡◌};
ghost use Rattle.values.specs.Meaning.{way_of, own_at, slots_asked, meant, suits};

use words::table;

// What a line takes: a message, 1, or a page, 2, as the kind of a captured record says. A line that takes nothing keeps its row, and so does one
// whose record is not sound by itself.
pub fn way_of(row: usize, octets: &[u8]) -> usize
    ensures { result ≡ way_of row octets.now }
{
    if row != table::CAPTURED {
        return row;
    }
    match skelmarix::read_captured(skelmarix::own_octets(octets, 4)) {
        Some(types::Captured::UserData { start }) => 1,
        Some(types::Captured::Page { start }) => 2,
        None => row,
    }
}

// Where the own octets of a captured record begin in its line: behind the sender, and behind mark and head.
const CAPTURED_AT: usize = 4 + types::CAPTURE_HEAD;

// Where the octets of the message or of the page begin.
pub fn own_at(row: usize) -> usize
    ensures { result ≡ own_at row }
{
    if row == table::CAPTURED {
        return CAPTURED_AT;
    }
    if row == table::MESSAGE { 4 } else { 0 }
}

// The number of slots that a line asks for: five if it names none. The library takes an octet: a greater number is handed in as 255.
pub fn slots_asked(count: usize, n: usize) -> u8
    ensures { result ≡ slots_asked count n }
{
    if count == 0 {
        return types::SLOTS as u8;
    }
    if n < 255 { n as u8 } else { 255 }
}

// Whether the words of a line that was read can be meant: an entry of the table of outstanding commands is one of eight, the record of a capture
// is sound by itself, and an entry of a log is one of eighty and has no more octets than it holds.
pub fn is_meant(row: usize, count: usize, n: usize, octets: &[u8]) -> bool
    ensures { result ≡ meant row count n octets.now }
{
    let way = way_of(row, octets);
    !((row == table::OUTSTANDING) & (1 < count) & (7 < n))
        & !(way == table::CAPTURED)
        & !((row == table::ENTRY) & ((79 < n) | (types::ENTRY_OCTETS < octets.len())))
}

// Whether an engine answers lines of that row: the first, 0, the card's, 1, the plain one, 2, or all of them, 3. A log answers no line that is about a
// record's slots or cells, and only a log those about its entries.
pub fn is_suited(engine: usize, row: usize) -> bool
    ensures { result ≡ suits engine row }
{
    !((1 < engine)
        & ((row == table::LEND_CELLS)
            | (row == table::SLOT)
            | (row == table::FORMED)
            | (row == table::SLOTS)))
        & !((table::ENGINE_BOTH < row) & !(engine == 2))
}
