// The packet that the parts of a series join to: they are written one behind the other, what they join to is judged, and the packet is copied to the
// output.
ghost use Rattle.std.specs.Prelude.{◌≡◌, ◌+◌, ◌≤◌, length};
ghost use Rattle.octets.specs.Octets.{placed};
ghost use Rattle.packet.specs.Packets.{most_octets};
ghost use Rattle.joined.specs.Fronts.{packet_in, told_size, length_in, output_with};
ghost use Rattle.plain.specs.Entries.{entries_from};
ghost use Rattle.second.specs.Acting.{log_piece, whole_of};

use logs::entries::part_at;
use logs::walks::{Sought, find};
use types::Kind;

// Part k of a slot, where it is: the part that arrives if k is its number, else the one in the log.
fn piece<'a>(entries: &'a [u8], count: u8, slot: u8, number: u8, part: &'a [u8], k: u8) -> &'a [u8]
    ensures { result.now ≡ log_piece (entries_from entries.now 0 count) slot number part.now k }
{
    if k == number {
        return part;
    }
    let i = find(entries, 0, count, Sought::OfPart { slot, number: k });
    if i < count {
        return part_at(entries, i);
    }
    octets::up_to(part, 0)
}

// Writes p from the place `at` on, and returns the place behind it.
fn put_behind(p: &[u8], out: &mut [u8], at: usize) -> usize
    requires { at + length p.now ≤ length out.old }
    ensures value { result ≡ at + length p.now }
    ensures out_after { out.new ≡ placed out.old at p.now }
{
    octets::put(p, out, at);
    at + p.len()
}

// Writes the parts of a slot at the start of out, one behind the other; how many octets they are.
fn join<'a>(
    entries: &'a [u8],
    count: u8,
    slot: u8,
    total: u8,
    number: u8,
    part: &'a [u8],
    out: &mut [u8],
) -> usize
    requires { length (whole_of (entries_from entries.now 0 count) slot total number part.now) ≤ length out.old }
    ensures value { result ≡ length (whole_of (entries_from entries.now 0 count) slot total number part.now) }
    ensures out_after { out.new ≡ placed out.old 0 (whole_of (entries_from entries.now 0 count) slot total number part.now) }
{
    let mut at = 0;
    for k in 0..total {
        at = put_behind(piece(entries, count, slot, number, part, k + 1), out, at);
    }
    at
}

// Hands out the packet in octets of `total` messages or pages: it is at the start of the output, whose rest stays. If there is none, all of it stays.
pub(crate) fn hand_out(
    kind: Kind,
    paged: bool,
    total: u8,
    whole: &[u8],
    output: &mut [u8],
) -> Option<usize>
    requires { length whole.now ≤ length output.old }
    ensures result_value { told_size result ≡ length_in (packet_in kind paged total whole.now) }
    ensures output_after { output.new ≡ output_with (packet_in kind paged total whole.now) output.old }
{
    let front = joined::front_of(whole);
    let size = joined::packet_size(kind, paged, total, front)?;
    octets::put(octets::up_to(whole, size), output, 0);
    Some(size)
}

// The same of the parts of a slot, with the one that arrives.
pub(crate) fn hand_out_series<'a>(
    kind: Kind,
    paged: bool,
    entries: &'a [u8],
    count: u8,
    slot: u8,
    total: u8,
    number: u8,
    part: &'a [u8],
    output: &mut [u8],
) -> Option<usize>
    requires part_len_bound { length (whole_of (entries_from entries.now 0 count) slot total number part.now) ≤ most_octets }
    requires output_len { length output.old ≡ most_octets }
    ensures result_value { told_size result ≡ length_in (packet_in kind paged total (whole_of (entries_from entries.now 0 count) slot total number part.now)) }
    ensures output_after { output.new ≡ output_with (packet_in kind paged total (whole_of (entries_from entries.now 0 count) slot total number part.now)) output.old }
{
    let mut work = [0u8; 2142];
    let n = join(entries, count, slot, total, number, part, &mut work);
    hand_out(kind, paged, total, octets::up_to(&work, n), output)
}
