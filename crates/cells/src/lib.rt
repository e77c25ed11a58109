#![tactic(auto)]
// The cells, where the parts of unfinished series are in the buffer that the caller lends: a part is stored, compared and read again. Where the
// buffer has no such cell, nothing is stored, and nothing is the same.
pub mod packets;

ghost use Rattle.std.specs.Prelude.{◌≡◌, ◌&&◌, length};
ghost use Rattle.octets.specs.Octets.{same_octets};
ghost use Rattle.arrival.specs.Message.{most_parts};
ghost use Rattle.cells.specs.Cells.{cell_at};
ghost use Rattle.cells.specs.Handing.{reaches, has_cell, Place, Reaches, after_store, cell_start, series_piece};

use types::{PART_OCTETS, PARTS, SLOT_OCTETS, SLOTS};

// Whether a buffer of that size has the cells of slot s.
pub(crate) fn reaches(size: usize, s: usize) -> bool
    ensures { result ≡ reaches size s }
{
    s < SLOTS && (s + 1) * SLOT_OCTETS <= size
}

// Whether it has the cell of part k of slot s.
fn has_cell(size: usize, s: usize, k: usize) -> bool
    ensures { result ≡ has_cell size s k }
{
    reaches(size, s) & (0 < k) & (k <= PARTS)
}

// Where part k of slot s begins.
fn cell_at(s: usize, k: usize) -> usize
    requires { Place s k }
    ensures { result ≡ cell_at s k }
{
    (PARTS * s + k - 1) * PART_OCTETS
}

// The first n octets of a cell, where they are.
fn cell<'a>(cells: &'a [u8], s: usize, k: usize, n: usize) -> &'a [u8]
    requires place { Place s k }
    requires reaches { Reaches s cells.now }
    ensures { result.now ≡ cell_start cells.now s k n }
{
    let from = cell_at(s, k);
    octets::up_to(&cells[from..], n)
}

// Writes a part at the start of its cell, and nothing else.
pub fn store(cells: &mut [u8], s: usize, k: usize, part: &[u8])
    ensures { cells.new ≡ after_store cells.old s k part.now }
{
    if has_cell(cells.len(), s, k) {
        octets::put(part, cells, cell_at(s, k));
    }
}

// Whether the first n octets of a cell are the part: as many, and the same.
pub fn same_part(cells: &[u8], s: usize, k: usize, n: u8, part: &[u8]) -> bool
    ensures { result ≡ (has_cell (length cells.now) s k && same_octets (cell_start cells.now s k n) part.now) }
{
    has_cell(cells.len(), s, k) && octets::same(cell(cells, s, k, octets::wide(n)), part)
}

// Part k of a series, where it is: the part that arrives if k is its number, and otherwise the one that the cells hold.
pub(crate) fn piece<'a>(
    cells: &'a [u8],
    lengths: &[u8],
    s: usize,
    k: usize,
    number: usize,
    part: &'a [u8],
) -> &'a [u8]
    requires place { Place s k }
    requires lengths_len { length lengths.now ≡ most_parts }
    requires reaches { Reaches s cells.now }
    ensures { result.now ≡ series_piece cells.now lengths.now s number part.now k }
{
    if k == number {
        return part;
    }
    cell(cells, s, k, octets::wide(lengths[k - 1]))
}
