#![tactic(auto)]
// Octets: one as a length, two as a 16-bit number, the first of a slice, octets put into a lent slice, and two slices compared.
pub mod given;

ghost use Rattle.std.specs.Prelude.{◌≡◌, take};
ghost use Rattle.octets.specs.Octets.{pair_of, number_of, fits_at, after_put, same_octets};

use types::Pair;

// The two octets of a number, the high one first.
pub fn pair_of(n: u16) -> Pair
    ensures { result ≡ pair_of n }
{
    let [high, low] = n.to_be_bytes();
    Pair(high, low)
}

// An octet as a length.
pub fn wide(x: u8) -> usize
    ensures { result ≡ x }
{
    usize::from(x)
}

// The number that two octets are.
pub fn number_of(high: u8, low: u8) -> u16
    ensures { result ≡ number_of high low }
{
    u16::from_be_bytes([high, low])
}

// The first n octets of a slice, where they are, or all if there are fewer.
pub fn up_to<'a>(src: &'a [u8], n: usize) -> &'a [u8]
    ensures { result.now ≡ take n src.now }
{
    src.get(..n).unwrap_or(src)
}

// Puts src into dst from the place `at` on, and says whether it fits there; if it does not, dst stays as it was.
pub fn put(src: &[u8], dst: &mut [u8], at: usize) -> bool
    ensures value { result ≡ fits_at dst.old at src.now }
    ensures dst_after { dst.new ≡ after_put dst.old at src.now }
{
    if dst.len() < at || dst.len() - at < src.len() {
        return false;
    }
    dst[at..at + src.len()].copy_from_slice(src);
    true
}

// Whether two slices hold the same octets: as many, and the same at each place.
pub fn same(a: &[u8], b: &[u8]) -> bool
    ensures { result ≡ same_octets a.now b.now }
{
    a == b
}
