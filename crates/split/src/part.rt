// What messages and pages share: which numbers there are, and the octets of a part.
ghost use Rattle.std.specs.Prelude.{◌≡◌, ◌≤◌, length, take, drop};
ghost use Rattle.split.specs.Splitting.{no_such_part};

// Whether no part has this number: it is 0 or above the total.
pub(crate) fn no_such_part(total: usize, number: u32) -> bool
    ensures { result ≡ no_such_part total number }
{
    (number == 0) | (total < number as usize)
}

// The octets of the packet from a place on: as many as there is room for, or those that are left.
pub(crate) fn cut(packet: &[u8], from: usize, room: usize) -> &[u8]
    requires { from ≤ length packet.now }
    ensures { result.now ≡ take room (drop from packet.now) }
{
    if packet.len() - from <= room {
        return &packet[from..];
    }
    let end = from + room;
    &packet[from..end]
}
