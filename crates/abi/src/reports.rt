// What goes out of a response.
ghost use Rattle.std.specs.Prelude.{◌≡◌};
ghost use Rattle.report.specs.Reporting.{told_outgoing, told_announcing, write_report, response_announces};
ghost use Rattle.heard.specs.Heard.{heard_going, heard_report, heard_announcing};

use heard::hear;
use types::{Outgoing, Refusal, Spi};

fn outgoing(o: Result<Outgoing, Refusal>, outgoing: &mut [usize; 2]) -> u32
    ensures { (result, outgoing.new) ≡ heard_going (told_outgoing o) }
{
    match o {
        Ok(Outgoing::Nothing) => {
            *outgoing = [1, 0];
            0
        }
        Ok(Outgoing::Report { length }) => {
            *outgoing = [2, length];
            0
        }
        Ok(Outgoing::Announcement { length }) => {
            *outgoing = [3, length];
            0
        }
        Ok(Outgoing::Submit) => {
            *outgoing = [4, 0];
            0
        }
        Err(why) => {
            *outgoing = [0, 0];
            hear::refusal(why)
        }
    }
}

fn announcing(a: Result<bool, Refusal>, announces: &mut usize) -> u32
    ensures { (result, announces.new) ≡ heard_announcing (told_announcing a) }
{
    match a {
        Ok(true) => {
            *announces = 1;
            0
        }
        Ok(false) => {
            *announces = 0;
            0
        }
        Err(why) => {
            *announces = 0;
            hear::refusal(why)
        }
    }
}

// Says what goes out of a response, and writes the report.
#[unsafe(no_mangle)]
pub extern "C" fn skm_write_report(
    spi_second: u8,
    capacity: usize,
    edition: u32,
    response: &[u8],
    out: &mut [u8],
    going: &mut [usize; 2],
) -> u32
    ensures { ((result, going.new), out.new) ≡ heard_report (write_report edition spi_second capacity response.now out.old) }
{
    let o = skelmarix::write_report(Spi(0, spi_second), capacity, edition, response, out);
    outgoing(o, going)
}

// Whether a plain response says that another follows.
#[unsafe(no_mangle)]
pub extern "C" fn skm_response_announces(response: &[u8], announces: &mut usize) -> u32
    ensures { (result, announces.new) ≡ heard_announcing (response_announces response.now) }
{
    let a = skelmarix::response_announces(response);
    announcing(a, announces)
}
