#![tactic(auto)]
// What one short message or one cell broadcast page brings: nothing is kept here, and anything may come.
ghost use Rattle.std.specs.Prelude.{◌≡◌, drop};

pub mod keys;
pub mod message;
pub mod page;

// The part's own octets: those of the message or the page from `start` on. Past the end there are none.
pub fn own_octets(octets: &[u8], start: usize) -> &[u8]
    ensures { result.now ≡ drop start octets.now }
{
    packet::behind::past(octets, start)
}
