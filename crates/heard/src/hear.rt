// What an answer of the library is for C: the number that is returned, and the numbers that the caller lent. A refusal puts zeros there.
ghost use Rattle.std.specs.Prelude.{◌≡◌, cond};
ghost use Rattle.types.specs.Refusals.{refusal_number, told_written};
ghost use Rattle.heard.specs.Heard.{heard_test, heard_number, heard_part, heard_brought, heard_taken, heard_nothing};
ghost use Rattle.arrival.specs.Arrivals.{told_arrival};
ghost use Rattle.series.specs.Taking.{told_answer};
ghost use Rattle.beats.specs.Beats.{told_beating};
ghost use Rattle.slots.specs.Slots.{told_making};
ghost use Rattle.split.specs.Splitting.{told};

use types::{Answer, Arrival, Refusal, WrittenPart};

pub fn refusal(why: Refusal) -> u32
    ensures { result ≡ refusal_number why }
{
    why.number() as u32
}

// Whether something is well formed: 0, or the number of the refusal of what is not.
pub fn test(ok: bool, number: u32) -> u32
    ensures { result ≡ heard_test number ok }
{
    if ok {
        return 0;
    }
    number
}

// A mark as a number.
fn mark(b: bool) -> usize
    ensures { result ≡ cond b 1 0 }
{
    if b {
        return 1;
    }
    0
}

// How many octets were written.
pub fn written(w: Result<usize, Refusal>, length: &mut usize) -> u32
    ensures { (result, length.new) ≡ heard_number (told_written w) }
{
    match w {
        Ok(n) => {
            *length = n;
            0
        }
        Err(why) => {
            *length = 0;
            refusal(why)
        }
    }
}

// How many parts there are, and how many octets were written.
pub fn part(w: Result<WrittenPart, Refusal>, part: &mut [usize; 2]) -> u32
    ensures { (result, part.new) ≡ heard_part (told w) }
{
    match w {
        Ok(WrittenPart { total, length }) => {
            *part = [total, length];
            0
        }
        Err(why) => {
            *part = [0, 0];
            refusal(why)
        }
    }
}

// What a message or a page brings.
pub fn arrival(a: Result<Arrival, Refusal>, brought: &mut [usize; 9]) -> u32
    ensures { (result, brought.new) ≡ heard_brought (told_arrival a) }
{
    match a {
        Ok(Arrival::Single { start }) => {
            *brought = [1, start, 0, 0, 0, 0, 0, 0, 0];
            0
        }
        Ok(
            Arrival::Part {
                key,
                total,
                number,
                start,
            },
        ) => {
            *brought = [
                2,
                start,
                total as usize,
                number as usize,
                key.sender as usize,
                key.width as usize,
                key.reference as usize,
                key.serial.0 as usize,
                key.identifier.0 as usize,
            ];
            0
        }
        Err(why) => {
            *brought = [0, 0, 0, 0, 0, 0, 0, 0, 0];
            refusal(why)
        }
    }
}

// What taking a message or a page comes to.
pub fn answer(a: Result<Answer, Refusal>, taken: &mut [usize; 4]) -> u32
    ensures { (result, taken.new) ≡ heard_taken (told_answer a) }
{
    match a {
        Ok(Answer::Kept { slot, displaced }) => {
            *taken = [1, slot, mark(displaced), 0];
            0
        }
        Ok(Answer::HeldAlready { slot }) => {
            *taken = [2, slot, 0, 0];
            0
        }
        Ok(Answer::Packet { length }) => {
            *taken = [3, 0, 0, length];
            0
        }
        Err(why) => {
            *taken = [0, 0, 0, 0];
            refusal(why)
        }
    }
}

// How many series a beat dropped.
pub fn beating(b: Result<u8, Refusal>, dropped: &mut usize) -> u32
    ensures { (result, dropped.new) ≡ heard_number (told_beating b) }
{
    match b {
        Ok(n) => {
            *dropped = n as usize;
            0
        }
        Err(why) => {
            *dropped = 0;
            refusal(why)
        }
    }
}

// Whether a state was made.
pub fn making(m: Result<(), Refusal>) -> u32
    ensures { result ≡ heard_nothing (told_making m) }
{
    match m {
        Ok(()) => 0,
        Err(why) => refusal(why),
    }
}
