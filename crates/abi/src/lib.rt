#![tactic(auto)]
// The library for C: numbers and lent octets cross, and nothing else. A call returns 0, or the number of the refusal. What it answers beside that is put
// into numbers that the caller lends: zeros, if the call is refused.
mod arrivals;
mod building;
mod captures;
mod packets;
mod reports;
mod states;
mod strings;

ghost use Rattle.std.specs.Prelude.{◌≡◌};
ghost use Rattle.heard.specs.Given.{version_number};

// The version of the library, each of its three numbers in an octet.
#[unsafe(no_mangle)]
pub extern "C" fn skm_version() -> u32
    ensures { result ≡ version_number 0 10 0 }
{
    0x000A00
}
