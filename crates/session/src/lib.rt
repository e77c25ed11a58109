#![tactic(auto)]
// A run of the bench: the next line of what was read, what is kept from line to line, and what is counted and written of the answers. Nothing is
// promised but that every call is safe.
pub mod piece;

use regions::Chosen;
use words::input;
use words::input::{Input, Source};

// Past this place of the text there may be too little room for another answer.
const NEARLY: usize = 32000;

// How far the input was read, and what is counted of the answers.
#[derive(Clone, Copy)]
pub struct Tally {
    pub input: Input,
    // how many lines were read, and how many of them were not understood or too long
    lines: u64,
    pub wrong: u64,
    // where the text ends that is not written yet, and where the answer of a line begins, behind its number
    end: usize,
    at: usize,
}

// What is kept from line to line.
#[derive(Clone, Copy)]
pub struct Session {
    chosen: Chosen,
    pub tally: Tally,
}

pub fn with_tally(s: Session, t: Tally) -> Session {
    let mut u = s;
    u.tally = t;
    u
}

// ---- writing
// Writes the text so far, unless something went wrong.
fn written(rt: HostRuntime, t: Tally, text: &[u8]) -> Tally {
    let mut u = t;
    if t.input.well {
        let well = match rt.write_all(skelmarix::first_octets(text, t.end)) {
            Ok(()) => true,
            Err(e) => {
                let _ = eprintln!(rt; "replay: write: {e}");
                false
            }
        };
        u.end = 0;
        u.input.well = well;
    }
    u
}

// The line that ends at a place: room for its answer, and its number.
fn next(rt: HostRuntime, t: Tally, end: usize, text: &[u8]) -> Tally {
    let mut u = t;
    if NEARLY < t.end {
        u = written(rt, t, text);
    }
    let from = std::num::wrapping_add_usize(end, 1);
    u.input.from = from;
    u.lines = std::num::wrapping_add_u64(t.lines, 1);
    u.at = u.end;
    u
}

// ---- a line
// Begins the answer of a line: with the line's number, if answers are numbered.
fn begin(rt: HostRuntime, t: Tally, end: usize, numbered: bool, text: &mut [u8]) -> Tally {
    let mut u = next(rt, t, end, text);
    if !numbered {
        return u;
    }
    let at = answers::number(u.lines, text, u.end);
    u.at = answers::say(b" ", text, at);
    u
}

// A line with which something is the matter is counted, and its answer says what.
fn trouble(t: Tally, what: &[u8], text: &mut [u8]) -> Tally {
    let mut u = t;
    u.wrong = std::num::wrapping_add_u64(t.wrong, 1);
    u.end = answers::trouble(t.lines, what, text, t.at);
    u
}

// What the bench made of a line: there is no answer if it ends where it begins.
fn heard(t: Tally, understood: bool, end: usize, text: &mut [u8]) -> Tally {
    if !understood {
        return trouble(t, b": not understood", text);
    }
    let mut u = t;
    if end != t.at {
        u.end = answers::end(text, end);
    }
    u
}

// Passes a line that is too long. A comment has no answer, however long it is.
fn pass(t: Tally, line: &[u8], text: &mut [u8]) -> Tally {
    let mut u = t;
    u.input.long = None;
    if input::is_passed(t.input, line) {
        return u;
    }
    trouble(u, b": too long", text)
}

// Takes a line that has ended, at a place of the piece.
pub fn take(
    rt: HostRuntime,
    line: &mut [u8],
    end: usize,
    s: Session,
    cells: &mut [u8],
    output: &mut [u8],
    buffer: &mut [u8],
    text: &mut [u8],
) -> Session {
    let t = begin(rt, s.tally, end, s.chosen.bench.numbered, text);
    if input::is_long(t.input, line) {
        return with_tally(s, pass(t, line, text));
    }
    let h = chosen::answer(line, s.chosen, cells, output, buffer, text, t.at);
    let after = h.chosen;
    Session {
        chosen: after,
        tally: heard(t, h.understood, h.end, text),
    }
}

// ---- input
// If no line ends in what is left of the piece: the answers are written, and more is read.
pub fn refill(
    rt: HostRuntime,
    t: Tally,
    source: &mut Source,
    piece: &mut [u8],
    text: &[u8],
) -> Tally {
    let mut u = written(rt, t, text);
    u.input = input::refill(rt, u.input, source, piece);
    u
}

// The session to begin with.
pub fn start(rt: HostRuntime, numbers: bool, source: &mut Source) -> Session {
    Session {
        chosen: chosen::start(numbers),
        tally: Tally {
            input: input::first(rt, if numbers { 2 } else { 1 }, source),
            lines: 0,
            wrong: 0,
            end: 0,
            at: 0,
        },
    }
}
