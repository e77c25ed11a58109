#![tactic(auto)]
// The packet that joined octets hold, told from their front alone: how many they are, and the first three of them (01, "Numbers", "Series").
// The front is made here, part by part, and judged here; what lies in one place is handed out here too.
ghost use Rattle.std.specs.Prelude.{◌≡◌, [], ◌++◌, ◌≤◌, length, take, drop};
ghost use Rattle.joined.specs.Fronts.{pages_allow, front_of, octet_after, extended, size_in, size_by, told_size, length_in, output_with, packet_for};

use types::{Kind, PAGE_CONTENT};

// The longest packet that two octets can state. A front counts no further.
const MOST_COUNTED: usize = 65537;

// How many octets there are, and the first three of them, which may lie in any parts; 0 stands for what is not there.
#[derive(Clone, Copy)]
pub struct Front {
    pub count: usize,
    pub high: u8,
    pub low: u8,
    pub header: u8,
}

// ---- the front
// The front of no octets.
pub fn no_front() -> Front
    ensures { result ≡ front_of [] }
{
    Front {
        count: 0,
        high: 0,
        low: 0,
        header: 0,
    }
}

// Octet i of what is joined, where it is `held` if it lies in the first n octets, and p follows these.
fn octet_after(i: usize, n: usize, held: u8, p: &[u8]) -> u8
    ensures { result ≡ octet_after i n held p.now }
{
    if i < n {
        return held;
    }
    p.get(i - n).copied().unwrap_or(0)
}

// The front, with p behind what it is the front of. Once three octets have been seen, only the count grows; once it counts more than a packet
// can have, nothing does.
pub fn extended(f: Front, p: &[u8]) -> Front
    ensures { result ≡ extended f p.now }
{
    let n = f.count;
    if MOST_COUNTED < n {
        return f;
    }
    let count = n + p.len();
    if 3 <= n {
        return Front { count, ..f };
    }
    Front {
        count,
        high: octet_after(0, n, f.high, p),
        low: octet_after(1, n, f.low, p),
        header: octet_after(2, n, f.header, p),
    }
}

// The front of octets that lie in one place.
pub fn front_of(p: &[u8]) -> Front
    ensures { result ≡ front_of p.now }
{
    extended(no_front(), p)
}

// ---- the packet's length
// How many of the octets count: all of them; in pages CPL + 2, or all where there are fewer.
fn size_in(paged: bool, f: Front) -> usize
    ensures { result ≡ size_in paged f }
{
    let n = f.count;
    if !paged {
        return n;
    }
    let stated = octets::number_of(f.high, f.low) as usize + 2;
    stated.min(n)
}

// Whether a packet of that length takes exactly that many pages.
fn pages_allow(total: u8, size: usize) -> bool
    ensures { result ≡ pages_allow total size }
{
    if total == 0 {
        return false;
    }
    let n = octets::wide(total);
    (PAGE_CONTENT * (n - 1) + 1 <= size) & (size <= PAGE_CONTENT * n)
}

// Whether octets with that front, in `total` messages or pages, hold a packet, and how long it is.
pub fn packet_size(kind: Kind, paged: bool, total: u8, f: Front) -> Option<usize>
    ensures { told_size result ≡ size_by kind paged total f }
{
    let size = size_in(paged, f);
    let formed = packet::read::formed(kind, size, f.high, f.low, f.header);
    if formed & (!paged | pages_allow(total, size)) {
        return Some(size);
    }
    None
}

// ---- handing out
// Writes the first `limit` octets of p at the start of out; the rest of out stays.
fn copy_front(p: &[u8], limit: usize, out: &mut [u8])
    requires { (limit ≤ length p.now) × (limit ≤ length out.old) }
    ensures { out.new ≡ take limit p.now ++ drop limit out.old }
{
    octets::put(octets::up_to(p, limit), out, 0);
}

// Hands out the packet of a single message or page: it stands at the start of out, whose rest stays. Where there is none, or out has not as
// many octets as p, all of out stays.
pub fn hand_out(kind: Kind, paged: bool, p: &[u8], out: &mut [u8]) -> Option<usize>
    ensures result_value { told_size result ≡ length_in (packet_for kind paged p.now (length out.old)) }
    ensures out_after { out.new ≡ output_with (packet_for kind paged p.now (length out.old)) out.old }
{
    if out.len() < p.len() {
        return None;
    }
    let size = packet_size(kind, paged, 1, front_of(p))?;
    copy_front(p, size, out);
    Some(size)
}
