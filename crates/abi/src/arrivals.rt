// Reading one message or page by itself, and writing one part.
ghost use Rattle.std.specs.Prelude.{◌≡◌};
ghost use Rattle.layout.specs.Layout.{kind_in};
ghost use Rattle.arrival.specs.Message.{read_message};
ghost use Rattle.arrival.specs.Page.{read_page};
ghost use Rattle.split.specs.Splitting.{write_message, write_page};
ghost use Rattle.heard.specs.Heard.{heard_brought, heard_piece};

use heard::{hear, parts};
use types::{MessageIdentifier, SerialNumber};

// What a message brings.
#[unsafe(no_mangle)]
pub extern "C" fn skm_read_message(
    kind: u32,
    sender: u32,
    ud: &[u8],
    brought: &mut [usize; 9],
) -> u32
    ensures { (result, brought.new) ≡ heard_brought (read_message (kind_in kind) sender ud.now) }
{
    let a = skelmarix::read_message(parts::kind_in(kind), sender, ud);
    hear::arrival(a, brought)
}

// What a page brings.
#[unsafe(no_mangle)]
pub extern "C" fn skm_read_page(kind: u32, page: &[u8], brought: &mut [usize; 9]) -> u32
    ensures { (result, brought.new) ≡ heard_brought (read_page (kind_in kind) page.now) }
{
    let a = skelmarix::read_page(parts::kind_in(kind), page);
    hear::arrival(a, brought)
}

// Writes part `number` of a packet as user data.
#[unsafe(no_mangle)]
pub extern "C" fn skm_write_message(
    kind: u32,
    width: u32,
    reference: u32,
    number: u32,
    packet: &[u8],
    out: &mut [u8],
    part: &mut [usize; 2],
) -> u32
    ensures { ((result, part.new), out.new) ≡ heard_piece (write_message (kind_in kind) width reference packet.now number out.old) }
{
    let w = skelmarix::write_message(parts::kind_in(kind), width, reference, number, packet, out);
    hear::part(w, part)
}

// Writes page `number` of a command.
#[unsafe(no_mangle)]
pub extern "C" fn skm_write_page(
    serial: u16,
    identifier: u16,
    dcs: u8,
    number: u32,
    packet: &[u8],
    out: &mut [u8],
    part: &mut [usize; 2],
) -> u32
    ensures { ((result, part.new), out.new) ≡ heard_piece (write_page serial identifier dcs packet.now number out.old) }
{
    let w = skelmarix::write_page(
        SerialNumber(serial),
        MessageIdentifier(identifier),
        dcs,
        number,
        packet,
        out,
    );
    hear::part(w, part)
}
