// The packet that the parts of a series join to: whether there is one is told before the first of its octets is written, from the front of
// the joined octets; then it is written, each octet once.
ghost use Rattle.std.specs.Prelude.{◌≡◌, ◌++◌, ◌+◌, ◌-◌, ◌≤◌, ◌<◌, length, take, drop};
ghost use Rattle.octets.specs.Octets.{placed};
ghost use Rattle.arrival.specs.Message.{most_parts};
ghost use Rattle.joined.specs.Fronts.{packet_in, front_of, told_size, length_in, output_with};
ghost use Rattle.slots.specs.Slots.{most_slots};
ghost use Rattle.cells.specs.Cells.{cell_octets};
ghost use Rattle.cells.specs.Handing.{Reaches, series_octets, joins, series_packet};

use crate::{piece, reaches};
use joined::Front;
use types::{Kind, PART_OCTETS, PARTS};

// ---- the front
// The parameters of a series stay apart, here and below: `hand_out` may not change, and a struct would be made and taken apart by it alone.
// The front of what the parts of a series join to.
fn joined_front<'a>(
    cells: &'a [u8],
    lengths: &[u8],
    total: usize,
    s: usize,
    number: usize,
    part: &'a [u8],
) -> Front
    requires s_lt_most_slots { (s < most_slots) × (total ≤ most_parts) }
    requires lengths_len { length lengths.now ≡ most_parts }
    requires part_len_bound { (length part.now ≤ cell_octets) × (Reaches s cells.now) }
    ensures { result ≡ front_of (series_octets cells.now lengths.now total s number part.now) }
{
    let mut f = joined::no_front();
    for k in 0..total {
        f = joined::extended(f, piece(cells, lengths, s, k + 1, number, part));
    }
    f
}

// ---- writing
// Writes p into out from the place `at` on, as far as to the place `limit`, and returns the place past it.
fn put_up_to(p: &[u8], limit: usize, out: &mut [u8], at: usize) -> usize
    requires { (at ≤ limit) × (limit ≤ length out.old) }
    ensures value { result ≡ at + length (take (limit - at) p.now) }
    ensures out_after { out.new ≡ placed out.old at (take (limit - at) p.now) }
{
    let q = octets::up_to(p, limit - at);
    octets::put(q, out, at);
    at + q.len()
}

// Writes the first `limit` octets of what the parts of a series join to at the start of out, each from where it lies; the rest of out stays.
fn join<'a>(
    cells: &'a [u8],
    lengths: &[u8],
    total: usize,
    s: usize,
    number: usize,
    part: &'a [u8],
    limit: usize,
    out: &mut [u8],
)
    requires s_lt_most_slots { (s < most_slots) × (total ≤ most_parts) }
    requires lengths_len { length lengths.now ≡ most_parts }
    requires reaches { Reaches s cells.now }
    requires limit_in_bounds { (limit ≤ length (series_octets cells.now lengths.now total s number part.now)) × (limit ≤ length out.old) }
    ensures { out.new ≡ take limit (series_octets cells.now lengths.now total s number part.now) ++ drop limit out.old }
{
    let mut at = 0;
    for k in 0..total {
        let p = piece(cells, lengths, s, k + 1, number, part);
        at = put_up_to(p, limit, out, at);
    }
}

// ---- handing out
// Whether parts can be joined: the cells of slot s are there, each part has a length, there are no more than sixteen, and the one that arrives
// fits a cell.
fn joins(size: usize, lengths: usize, total: usize, s: usize, part: usize) -> bool
    ensures { result ≡ joins size lengths total s part }
{
    reaches(size, s) & (lengths == PARTS) & (total <= PARTS) & (part <= PART_OCTETS)
}

// Hands out the packet that parts with that front join to: it stands at the start of out, whose rest stays. Where they join to none, all of out
// stays.
fn write_packet<'a>(
    kind: Kind,
    paged: bool,
    cells: &'a [u8],
    lengths: &[u8],
    total: usize,
    s: usize,
    number: usize,
    part: &'a [u8],
    front: Front,
    out: &mut [u8],
) -> Option<usize>
    requires s_lt_most_slots { (s < most_slots) × (total ≤ most_parts) }
    requires lengths_len { length lengths.now ≡ most_parts }
    requires reaches { Reaches s cells.now }
    requires front_value { front ≡ front_of (series_octets cells.now lengths.now total s number part.now) }
    requires count_in_bounds { front.count ≤ length out.old }
    ensures result_value { told_size result ≡ length_in (packet_in kind paged total (series_octets cells.now lengths.now total s number part.now)) }
    ensures out_after { out.new ≡ output_with (packet_in kind paged total (series_octets cells.now lengths.now total s number part.now)) out.old }
{
    let size = joined::packet_size(kind, paged, total as u8, front)?;
    join(cells, lengths, total, s, number, part, size, out);
    Some(size)
}

// Hands out the packet that the parts of a series join to: it stands at the start of out, whose rest stays. Where they join to none, or out has
// not as many octets as they have together, all of out stays.
pub fn hand_out<'a>(
    kind: Kind,
    paged: bool,
    cells: &'a [u8],
    lengths: &[u8],
    total: usize,
    s: usize,
    number: usize,
    part: &'a [u8],
    out: &mut [u8],
) -> Option<usize>
    ensures result_value { told_size result ≡ length_in (series_packet kind paged cells.now lengths.now total s number part.now (length out.old)) }
    ensures out_after { out.new ≡ output_with (series_packet kind paged cells.now lengths.now total s number part.now (length out.old)) out.old }
{
    if !joins(cells.len(), lengths.len(), total, s, part.len()) {
        return None;
    }
    let front = joined_front(cells, lengths, total, s, number, part);
    if out.len() < front.count {
        return None;
    }
    write_packet(
        kind, paged, cells, lengths, total, s, number, part, front, out,
    )
}
