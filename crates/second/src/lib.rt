#![tactic(auto)]
// Taking a message or a page on the log of the plain engine (02 [9]): one lent log of accepted parts. Each search walks over the log from its start, and a
// series is dropped by copying the log without it.
pub(crate) mod packets;
pub(crate) mod take;

ghost use Rattle.std.specs.Prelude.{◌≡◌, true};
ghost use Rattle.arrival.specs.Arrivals.{told_arrival};
ghost use Rattle.arrival.specs.Message.{read_message};
ghost use Rattle.arrival.specs.Page.{read_page};
ghost use Rattle.series.specs.Taking.{told_answer};
ghost use Rattle.series.specs.Deciding.{Fitting};
ghost use Rattle.plain.specs.Entries.{state_in};
ghost use Rattle.plain.specs.Engine as rule;
ghost use Rattle.plain.specs.Engine.{after_log};
ghost use Rattle.second.specs.Acting.{Stays, taken_if_fit, only_reads};

use logs::sound::state_formed;
use types::{Arrival, Log, LogTaken, PACKET_OCTETS, Refusal};

// ---- taking
// Takes what reading the octets of a message or a page gave, if the log and the buffers are as they must be.
fn take_arrival(
    log: Log,
    paged: bool,
    octets: &[u8],
    arrival: Result<Arrival, Refusal>,
    entries: &mut [u8],
    output: &mut [u8],
) -> LogTaken
    requires { Fitting log.kind octets.now arrival }
    ensures output_after { after_log (told_answer result.answer) (state_in result.log entries.new) output.new ≡ taken_if_fit (state_in log entries.old) output.old paged octets.now (told_arrival arrival) }
    ensures stays { Stays (only_reads (told_arrival arrival) (told_answer result.answer)) entries.old entries.new }
{
    let formed = state_formed(log, entries);
    if !formed | (output.len() != PACKET_OCTETS) {
        return LogTaken {
            answer: Err(Refusal::BufferOrRecord),
            log,
        };
    }
    let kind = log.kind;
    let n = log.slots;
    let done = take::take_brought(n, kind, entries, log.count, paged, octets, arrival, output);
    let answer = done.answer;
    LogTaken {
        answer,
        log: Log {
            kind,
            slots: n,
            count: done.count,
        },
    }
}

// Takes a message from `sender`: a part is kept, a packet that is complete is handed out, and whatever is wrong is refused. The octets of the log change
// only if a part is accepted, or completes a series.
pub fn take_message(
    log: Log,
    sender: u32,
    ud: &[u8],
    entries: &mut [u8],
    output: &mut [u8],
) -> LogTaken
    ensures output_after { after_log (told_answer result.answer) (state_in result.log entries.new) output.new ≡ rule.log_take_message (state_in log entries.old) output.old sender ud.now }
    ensures entries_unchanged { only_reads (read_message log.kind sender ud.now) (told_answer result.answer) ≡ true → entries.new ≡ entries.old }
{
    let kind = log.kind;
    let arrival = arrival::message::read_message(kind, sender, ud);
    take_arrival(log, false, ud, arrival, entries, output)
}

// Takes a page in the same way.
pub fn take_page(log: Log, page: &[u8], entries: &mut [u8], output: &mut [u8]) -> LogTaken
    ensures output_after { after_log (told_answer result.answer) (state_in result.log entries.new) output.new ≡ rule.log_take_page (state_in log entries.old) output.old page.now }
    ensures entries_unchanged { only_reads (read_page log.kind page.now) (told_answer result.answer) ≡ true → entries.new ≡ entries.old }
{
    let kind = log.kind;
    let arrival = arrival::page::read_page(kind, page);
    take_arrival(log, true, page, arrival, entries, output)
}
