// Input of a program: what its call names, read piece by piece into one buffer, with the start of a line that did not end kept before what is
// read next. Nothing is promised but that every call is safe.
ghost use Rattle.std.specs.Prelude.{◌≤◌, length, IfOk};

use std::env::{Env, FillError};
use std::fs::File;
use std::io;
use std::io::Read;

// The most characters of a line.
const MOST: usize = 9000;

// The most characters of a word of the call.
const WORD: usize = 4096;

// How far reading has come.
#[derive(Clone, Copy)]
pub struct Input {
    // where the line to come begins in the piece, and how many characters are there
    pub from: usize,
    pub count: usize,
    // if more than fit were read of that line, so that it is passed: whether it is a comment
    pub long: Option<bool>,
    // which word of the call names what is read next
    next: usize,
    // whether there is more to read, and whether reading and writing have gone well
    more: bool,
    pub well: bool,
}

// What is read: standard input, or a file that a word of the call names. A file is closed when the next one takes its place.
#[derive(Drop)]
pub enum Source {
    Standard,
    Named(File),
}

// Whether there is something to do: more to read, or characters that were read.
pub fn goes_on(i: Input) -> bool {
    (i.more & i.well) | (i.count != 0)
}

// ---- words and files
// How many characters a word of the call has; 0 if there is no such word, or if it does not fit.
fn word_at(rt: HostRuntime, word: usize, path: &mut [u8]) -> usize
    ensures { result ≤ length path.new }
{
    rt.arg(word, path).unwrap_or(0)
}

// Whether the call has a word of this number.
fn is_there(rt: HostRuntime, word: usize) -> bool {
    let mut start = [0u8; 1];
    !matches!(rt.arg(word, &mut start), Err(FillError::NotPresent))
}

// Whether the first word of the call is -n.
pub fn is_flag(rt: HostRuntime) -> bool {
    let mut path = [0u8; WORD];
    let n = word_at(rt, 1, &mut path);
    &path[..n] == b"-n".as_slice()
}

// A word that is neither -n nor a file.
fn refuse(rt: HostRuntime, word: &[u8]) {
    let err = rt.stderr();
    let _ = err.write_all(b"replay: no use for the word ");
    let _ = err.write_all(word);
    let _ = err.write_all(b"\n");
}

// Opens a file for reading; none if it cannot be, which is then said. A word that begins with - is no file, nor is one that is no text.
fn opened(rt: HostRuntime, word: &[u8]) -> Option<File> {
    match std::str::from_utf8(word) {
        Ok(path) if !path.is_empty() && !path.starts_with('-') => found(rt, path),
        _ => {
            refuse(rt, word);
            None
        }
    }
}

// The file at a path.
fn found(rt: HostRuntime, path: &str) -> Option<File> {
    match File::open(&rt, path) {
        Ok(file) => Some(file),
        Err(e) => {
            let _ = eprintln!(rt; "{path}: {e}");
            None
        }
    }
}

// The file that a word of the call names, opened.
fn named(rt: HostRuntime, word: usize) -> Option<File> {
    let mut path = [0u8; WORD];
    let n = word_at(rt, word, &mut path);
    opened(rt, &path[..n])
}

// The next file that the call names, if there is one.
fn after(rt: HostRuntime, i: Input, source: &mut Source) -> Input {
    if !is_there(rt, i.next) {
        return Input { more: false, ..i };
    }
    let next = i.next.wrapping_add(1);
    let Some(file) = named(rt, i.next) else {
        return Input {
            next,
            well: false,
            ..i
        };
    };
    *source = Source::Named(file);
    Input {
        next,
        well: true,
        ..i
    }
}

// What is read first: the file that a word names, or what it is already if the call names none.
pub fn first(rt: HostRuntime, word: usize, source: &mut Source) -> Input {
    let i = Input {
        from: 0,
        count: 0,
        long: None,
        next: word,
        more: true,
        well: true,
    };
    if is_there(rt, word) {
        after(rt, i, source)
    } else {
        i
    }
}

// ---- lines
// Whether a line has more characters than fit.
pub fn is_long(i: Input, line: &[u8]) -> bool {
    i.long.is_some() | (MOST < line.len())
}

// Whether a line that is too long is a comment, of which the start may be gone.
pub fn is_passed(i: Input, line: &[u8]) -> bool {
    i.long.unwrap_or_else(|| crate::line::is_silent(line))
}

// Keeps the start of a line that did not end; the start of one that is too long is gone.
fn keep(i: Input, piece: &mut [u8]) -> Input {
    if i.from <= piece.len() {
        piece.copy_within(i.from.., 0);
    }
    let count = i.count.saturating_sub(i.from);
    if i.long.is_some() | (MOST + 1 < count) {
        return Input {
            from: 0,
            count: 0,
            long: Some(is_passed(i, octets::up_to(piece, count))),
            ..i
        };
    }
    Input {
        from: 0,
        count,
        ..i
    }
}

// ---- reading
// The end of an input. A last line may lack its end: it gets one.
fn ended(rt: HostRuntime, i: Input, source: &mut Source, piece: &mut [u8]) -> Input {
    let u = after(rt, i, source);
    let at = i.count;
    if (at < piece.len()) & ((at != 0) | i.long.is_some()) {
        piece[at] = b'\n';
        return Input { count: at + 1, ..u };
    }
    Input { count: 0, ..u }
}

// Nothing more is read or written.
fn failed(i: Input) -> Input {
    Input {
        count: 0,
        well: false,
        ..i
    }
}

// Reads what there is, as far as there is room.
fn filled(rt: HostRuntime, source: &mut Source, room: &mut [u8]) -> io::Result<usize>
    ensures { IfOk result (λ n. n ≤ length room.new) }
{
    match source {
        Source::Standard => rt.stdin().read(room),
        Source::Named(file) => file.read(room),
    }
}

// Reads behind the characters that are kept.
fn read(rt: HostRuntime, i: Input, source: &mut Source, piece: &mut [u8]) -> Input {
    let kept = i.count;
    if piece.len() < kept {
        return failed(i);
    }
    match filled(rt, source, &mut piece[kept..]) {
        Ok(0) => ended(rt, i, source, piece),
        Ok(n) => Input {
            count: kept + n,
            ..i
        },
        Err(e) => {
            let _ = eprintln!(rt; "replay: read: {e}");
            failed(i)
        }
    }
}

// If no line ends in what is left of the piece: that is kept, and more is read behind it.
pub fn refill(rt: HostRuntime, i: Input, source: &mut Source, piece: &mut [u8]) -> Input {
    let u = keep(i, piece);
    if u.more & u.well {
        read(rt, u, source, piece)
    } else {
        Input { count: 0, ..u }
    }
}
