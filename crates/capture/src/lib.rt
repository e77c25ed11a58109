#![tactic(auto)]
// Captures (02, [14]): gateways write each record behind a mark, and files lose stretches. What is sound is copied, and what is skipped is told.
ghost use Rattle.std.specs.Prelude.{◌≡◌, ◌+◌, ◌≤◌, false, length, drop, MatchOption};
ghost use Rattle.types.specs.Refusals.{gives, lent, writes, told_written};
ghost use Rattle.capture.specs.Captures.{has_mark, right_head, sound, salvaged, next_run, salvaging, record_in};
ghost use Rattle.capture.specs.Laws.{SoundRecord, skipped_at, run_at};

use octets::put;
use types::{CAPTURE_HEAD, CAPTURE_OCTETS, Captured, Refusal, SkippedRun};

// ---- a record
// Whether a mark stands at the front.
fn is_marked(o: &[u8]) -> bool
    ensures { result ≡ has_mark o.now }
{
    matches!(o, [0xA5, 0x5A, ..])
}

// Whether kind and length are right.
fn is_head(kind: u8, own: u8) -> bool
    ensures { result ≡ right_head kind own }
{
    match kind {
        1 => own <= 140,
        2 => own == 88,
        _ => false,
    }
}

// How many octets the sound record at the front has, its mark and head included; none if there is no such record. At most six octets are looked
// at, so that the time for a file grows as its length does.
fn sound_record(left: &[u8]) -> Option<usize>
    ensures { MatchOption result (sound left.now ≡ false) (SoundRecord left.now) }
{
    let [_, _, kind, own, ..] = left else {
        return None;
    };
    if !is_marked(left) {
        return None;
    }
    if !is_head(*kind, *own) {
        return None;
    }
    let n = CAPTURE_HEAD + usize::from(*own);
    let behind = left.get(n..)?;
    if behind.is_empty() || is_marked(behind) {
        Some(n)
    } else {
        None
    }
}

// ---- salvaging
// Copies the sound records of a file to the start of an output of its length; how many octets these are.
fn copy_sound(file: &[u8], output: &mut [u8]) -> usize
    requires { length output.old ≡ length file.now }
    ensures { lent (gives result) output.new ≡ writes (gives (salvaged file.now)) output.old }
{
    let mut at = 0;
    let mut end = 0;
    while at < file.len() {
        let Some(n) = sound_record(&file[at..]) else {
            at += 1;
            continue;
        };
        put(&file[at..at + n], output, end);
        at += n;
        end += n;
    }
    end
}

// Copies the sound records of a file to the start of an output of its length, whose rest stays: how many octets were copied, or refusal 24 or 1.
pub fn salvage(file: &[u8], output: &mut [u8]) -> Result<usize, Refusal>
    ensures { lent (told_written result) output.new ≡ salvaging file.now output.old }
{
    if CAPTURE_OCTETS < file.len() {
        return Err(Refusal::CaptureTooLong);
    }
    if output.len() != file.len() {
        return Err(Refusal::BufferOrRecord);
    }
    Ok(copy_sound(file, output))
}

// ---- what is skipped
// The first position from one on where no sound record is read.
fn behind_records(file: &[u8], from: usize) -> usize
    requires { from ≤ length file.now }
    ensures { (next_run file.now from ≡ run_at file.now result) × (result ≤ length file.now) }
{
    let mut at = from;
    while let Some(n) = sound_record(&file[at..]) {
        at += n;
    }
    at
}

// The first position from one on that is not skipped: that of a sound record, or the file's end.
fn behind_skipped(file: &[u8], from: usize) -> usize
    requires { from ≤ length file.now }
    ensures { (result ≡ from + skipped_at (drop from file.now)) × (result ≤ length file.now) }
{
    for at in from..file.len() {
        if sound_record(&file[at..]).is_some() {
            return at;
        }
    }
    file.len()
}

// The next longest run of octets that salvaging skips, from a position on, at which reading begins as at the file's start. If nothing is skipped,
// the count is 0. Every position is right, also one inside a record or past the end.
pub fn next_skipped(file: &[u8], from: usize) -> SkippedRun
    ensures { result ≡ next_run file.now from }
{
    if file.len() < from {
        return SkippedRun {
            first: from,
            count: 0,
            next: from,
        };
    }
    let first = behind_records(file, from);
    let behind = behind_skipped(file, first);
    SkippedRun {
        first,
        count: behind - first,
        next: behind,
    }
}

// ---- one record by itself
// What octets are as one record of a capture that ends where they end, and where its own octets begin.
pub fn read_captured(octets: &[u8]) -> Option<Captured>
    ensures { result ≡ record_in octets.now }
{
    if sound_record(octets)? != octets.len() {
        return None;
    }
    if octets[2] == 1 {
        return Some(Captured::UserData {
            start: CAPTURE_HEAD,
        });
    }
    Some(Captured::Page {
        start: CAPTURE_HEAD,
    })
}
