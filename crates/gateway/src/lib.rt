#![tactic(auto)]
// Outstanding commands, server side (02, [13]): which commands were sent and wait for their response. The table goes in and comes back by value;
// the server keeps it. Of the library below, the two calls see only what is promised.
ghost use Rattle.std.specs.Prelude.{◌≡◌, not, ◌≤◌, ◌<◌, length, position};
ghost use Rattle.types.specs.Refusals.{gives, refuse◌when◌otherwise◌};
ghost use Rattle.gateway.specs.Gateway.{sent_command, same_command, awaited, zero_command, no_commands, among, twice_among, unfit_table, with_command, answered_by, fate_by, settled, or_stays, command_sent, response_came, told_sending, told_closing};
ghost use Rattle.gateway.specs.Places.{taken_out};

use packet::behind;
use report::response_announces;
use types::{
    AfterResponse, AfterSending, Closing, Cntr, OUTSTANDING_ENTRIES, Outstanding, Refusal,
    SentCommand, Tar,
};

// ---- the table
// A command that is all zero.
fn zero() -> SentCommand
    ensures { result ≡ zero_command }
{
    SentCommand {
        sender: 0,
        tar: Tar(0, 0, 0),
        cntr: Cntr(0, 0, 0, 0, 0),
    }
}

// A table with no command, all zero.
pub fn no_commands() -> Outstanding
    ensures { result ≡ no_commands }
{
    Outstanding {
        count: 0,
        entries: [zero(); OUTSTANDING_ENTRIES],
    }
}

// The entries in use.
fn awaited(outstanding: &Outstanding) -> &[SentCommand]
    requires { outstanding.now.count ≤ 8 }
    ensures { result.now ≡ awaited outstanding.now }
{
    &outstanding.entries[..outstanding.count as usize]
}

// Whether two commands are equal in sender, TAR and CNTR. No test ends the comparison early, so that the compiler compares many octets at once: `==`,
// which asks octet by octet, took up to 1.8 times the instructions of a call.
fn same_command(a: SentCommand, b: SentCommand) -> bool
    ensures { result ≡ same_command a b }
{
    let t = a.tar;
    let u = b.tar;
    let m = a.cntr;
    let n = b.cntr;
    (a.sender == b.sender)
        & ((t.0 == u.0) & (t.1 == u.1) & (t.2 == u.2))
        & ((m.0 == n.0) & (m.1 == n.1) & (m.2 == n.2) & (m.3 == n.3) & (m.4 == n.4))
}

// The place of the first entry that equals a command, if one does.
fn place_of(entries: &[SentCommand], command: SentCommand) -> Option<usize>
    ensures { result ≡ position (λ e. same_command e command) entries.now }
{
    entries
        .iter()
        .position(|entry| same_command(*entry, command))
}

// Whether two of the entries are equal.
fn sent_twice(entries: &[SentCommand]) -> bool
    ensures { result ≡ twice_among entries.now }
{
    let mut rest = entries;
    while let Some((entry, others)) = rest.split_first() {
        if place_of(others, *entry).is_some() {
            return true;
        }
        rest = others;
    }
    false
}

// Whether a table is refused.
fn unfit(outstanding: &Outstanding) -> bool
    ensures { result ≡ unfit_table outstanding.now }
{
    OUTSTANDING_ENTRIES < outstanding.count as usize || sent_twice(awaited(outstanding))
}

// Puts a command more into the table.
fn put_in(outstanding: &mut Outstanding, command: SentCommand)
    requires { outstanding.old.count < 8 }
    ensures { outstanding.new ≡ with_command outstanding.old command }
{
    outstanding.entries[outstanding.count as usize] = command;
    outstanding.count += 1;
}

// Takes the entry at a place out of the first ones: those behind it move up, and the last of them is zero.
// The entries move one by one, since a slice has no `copy_within` here.
fn take_out(entries: &mut [SentCommand], at: usize, end: usize)
    requires { (at < end) × (end ≤ length entries.old) }
    ensures { entries.new ≡ taken_out at end entries.old }
{
    for i in at..end - 1 {
        entries[i] = entries[i + 1];
    }
    entries[end - 1] = zero();
}

// ---- the response
// The command that a response from a sender answers.
fn answered_by(sender: u32, response: &[u8]) -> SentCommand
    requires { 13 ≤ length response.now }
    ensures { result ≡ answered_by sender response.now }
{
    SentCommand {
        sender,
        tar: behind::tar_at(response, 3),
        cntr: behind::cntr_at(response, 6),
    }
}

// The answer of a response that can be read, against a table that is not refused; `announces` says whether another follows it.
fn matched(
    outstanding: &mut Outstanding,
    announces: bool,
    command: SentCommand,
) -> Result<Closing, Refusal>
    requires { outstanding.old.count ≤ 8 }
    ensures { settled (told_closing result) outstanding.new ≡ or_stays outstanding.old (refuse 23 when not (among command (awaited outstanding.old)) otherwise gives (fate_by announces outstanding.old command)) }
{
    let Some(at) = place_of(awaited(outstanding), command) else {
        return Err(Refusal::Unmatched);
    };
    if announces {
        return Ok(Closing::Waiting);
    }
    let end = outstanding.count as usize;
    take_out(&mut outstanding.entries, at, end);
    outstanding.count -= 1;
    Ok(Closing::Closed)
}

// ---- the calls
// The answer to a command that was sent, in the order of the refusals. A refusal leaves the table as it was.
fn sent(outstanding: &mut Outstanding, command: SentCommand) -> Result<(), Refusal>
    ensures { settled (told_sending result) outstanding.new ≡ command_sent outstanding.old command }
{
    if unfit(outstanding) {
        return Err(Refusal::BufferOrRecord);
    }
    if place_of(awaited(outstanding), command).is_some() {
        return Err(Refusal::AlreadySent);
    }
    if OUTSTANDING_ENTRIES <= outstanding.count as usize {
        return Err(Refusal::TableFull);
    }
    put_in(outstanding, command);
    Ok(())
}

// Notes that a command was sent: the table has it afterwards, or refusal 1, 22 or 21.
pub fn command_sent(mut outstanding: Outstanding, sender: u32, tar: Tar, cntr: Cntr) -> AfterSending
    ensures { settled (told_sending result.answer) result.outstanding ≡ command_sent outstanding (sent_command sender tar cntr) }
{
    let answer = sent(&mut outstanding, SentCommand { sender, tar, cntr });
    AfterSending {
        answer,
        outstanding,
    }
}

// The answer to a response that came, in the order of the refusals. A refusal leaves the table as it was.
fn came(outstanding: &mut Outstanding, sender: u32, response: &[u8]) -> Result<Closing, Refusal>
    ensures { settled (told_closing result) outstanding.new ≡ response_came outstanding.old sender response.now }
{
    if unfit(outstanding) {
        return Err(Refusal::BufferOrRecord);
    }
    let announces = response_announces(response)?;
    matched(outstanding, announces, answered_by(sender, response))
}

// Takes note of a plain response from a sender: it closes the command that it answers, or says that another response follows and leaves the
// command waiting, or is refused 1, 9, 12 or 23. A ciphered response is taken for plain.
pub fn response_came(mut outstanding: Outstanding, sender: u32, response: &[u8]) -> AfterResponse
    ensures { settled (told_closing result.answer) result.outstanding ≡ response_came outstanding sender response.now }
{
    let answer = came(&mut outstanding, sender, response);
    AfterResponse {
        answer,
        outstanding,
    }
}
