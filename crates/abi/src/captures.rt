// Captures: what is sound of one, the runs that are skipped, and one record by itself.
ghost use Rattle.std.specs.Prelude.{◌≡◌};
ghost use Rattle.capture.specs.Captures.{salvaging, next_run, record_in};
ghost use Rattle.heard.specs.Heard.{heard_written, heard_run, heard_captured};

use heard::hear;
use types::Captured;

// Copies the sound records of a file to the start of an output of its length.
#[unsafe(no_mangle)]
pub extern "C" fn skm_salvage(file: &[u8], output: &mut [u8], length: &mut usize) -> u32
    ensures { ((result, length.new), output.new) ≡ heard_written (salvaging file.now output.old) }
{
    let w = skelmarix::salvage(file, output);
    hear::written(w, length)
}

// The next longest run of octets that salvaging skips.
#[unsafe(no_mangle)]
pub extern "C" fn skm_next_skipped(file: &[u8], from: usize, run: &mut [usize; 3]) -> u32
    ensures { (result, run.new) ≡ heard_run (next_run file.now from) }
{
    let found = skelmarix::next_skipped(file, from);
    *run = [found.first, found.count, found.next];
    0
}

fn captured(c: Option<Captured>, found: &mut [usize; 2]) -> u32
    ensures { (result, found.new) ≡ heard_captured c }
{
    match c {
        Some(Captured::UserData { start }) => {
            *found = [1, start];
            0
        }
        Some(Captured::Page { start }) => {
            *found = [2, start];
            0
        }
        None => {
            *found = [0, 0];
            0
        }
    }
}

// Whether octets are one sound record.
#[unsafe(no_mangle)]
pub extern "C" fn skm_read_captured(octets: &[u8], found: &mut [usize; 2]) -> u32
    ensures { (result, found.new) ≡ heard_captured (record_in octets.now) }
{
    let c = skelmarix::read_captured(octets);
    captured(c, found)
}
