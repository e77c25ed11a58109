// Lines on the table of outstanding commands: an entry as it stands, the count in use, a command that was sent, and a response that came.
ghost use Rattle.std.specs.Prelude.{◌≡◌, drop};
ghost use Rattle.skelmarix.specs.Rules.{command_sent, response_came};
ghost use Rattle.values.specs.Fields.{sender_of};
ghost use Rattle.values.specs.Tables.{command_of, table_written, commands_after};

use crate::fields::{cntr_of, sender_of, tar_of};
use crate::rows;
use crate::rows::Row;
use skelmarix::own_octets;
use types::{Outstanding, SentCommand};
use words::table;

// The table as a line leaves it, and the answer.
#[derive(Clone, Copy)]
pub struct Left {
    pub outstanding: Outstanding,
    pub row: Row,
}

// SENDER, TAR and CNTR are the twelve octets of the line.
fn command_of(octets: &[u8]) -> SentCommand
    ensures { result ≡ command_of octets.now }
{
    let tar = own_octets(octets, 4);
    let cntr = own_octets(octets, 7);
    SentCommand {
        sender: sender_of(octets),
        tar: tar_of(tar),
        cntr: cntr_of(cntr),
    }
}

fn sent(octets: &[u8], t: Outstanding) -> Left
    ensures { result.outstanding ≡ (command_sent t (command_of octets.now)).1 }
{
    let c = command_of(octets);
    let s = skelmarix::command_sent(t, c.sender, c.tar, c.cntr);
    let answer = s.answer;
    let after = s.outstanding;
    Left {
        outstanding: after,
        row: rows::sending(answer),
    }
}

fn answered(octets: &[u8], t: Outstanding) -> Left
    ensures { result.outstanding ≡ (response_came t (sender_of octets.now) (drop 4 octets.now)).1 }
{
    let response = own_octets(octets, 4);
    let s = skelmarix::response_came(t, sender_of(octets), response);
    let answer = s.answer;
    let after = s.outstanding;
    Left {
        outstanding: after,
        row: rows::closing(answer),
    }
}

// With another count in use if the line has one number, and with an entry as it stands if the line has one.
fn written(count: usize, n: usize, e: SentCommand, t: Outstanding) -> Outstanding
    ensures { result ≡ table_written count n e t }
{
    let mut u = t;
    if count == 0 {
        return u;
    }
    if count == 1 {
        u.count = (n % 256) as u8;
        return u;
    }
    u.entries[n % 8] = e;
    u
}

// What a line on the table leaves of it; the answer of `outstanding` is the table itself.
pub fn after(row: usize, count: usize, n: usize, octets: &[u8], t: Outstanding) -> Left
    ensures { result.outstanding ≡ commands_after row count n octets.now t }
{
    if row == table::SENT {
        return sent(octets, t);
    }
    if row == table::ANSWERED {
        return answered(octets, t);
    }
    Left {
        outstanding: written(count, n, command_of(octets), t),
        row: Row::new("outstanding", &[]),
    }
}
