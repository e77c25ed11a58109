// What a whole line says, read once from its front to its end. Its octets are then at its start, one word's behind the other's: a pair of
// digits is longer than its octet, so that what is read is never overwritten before.
ghost use Rattle.std.specs.Prelude.{◌≡◌, List, ℕ, ◌≤◌, ◌<◌, length, take, drop};
ghost use Rattle.words.specs.Line as rule;
ghost use Rattle.words.specs.Line.{silent, number_read, octets_read, word_read, begun, word_of, gathered, Apart, Reads};
ghost use Rattle.words.specs.Table.{name_after, row_of};

use crate::table::{ANY, END, NAME, SLOT_PARTS, find, most_of, sorts_of};
use crate::{is_end, is_last, number_at, octets_at, skip};

// What reading a word gave: whether it is of its sort, its value, the place behind it, and how many octets the line has so far. `good` is a flag,
// and no `Option`, since the rule (`WordRead` of specs/Line.antt) gives a word that is not of its sort a value and a place too.
#[derive(Clone, Copy)]
pub(crate) struct Word {
    pub(crate) good: bool,
    pub(crate) value: u64,
    pub(crate) at: usize,
    pub(crate) end: usize,
}

// The most words that a line has behind its names and before the parts of a slot.
pub const VALUES: usize = 9;

// What was read of a line. The values are those of the words behind the names: a number, or for octets how many the line has up to their end.
// `understood` and `more` are flags as in the rule (`Gathered` of specs/Line.antt), which has a row and values of a line that is not understood too.
#[derive(Clone, Copy)]
pub struct Line {
    pub understood: bool,
    pub more: bool,
    pub row: usize,
    pub sorts: u64,
    pub values: [u64; VALUES],
    pub count: usize,
    pub at: usize,
    pub end: usize,
}

// ---- one word
// A name or a number.
fn number_read(sort: u8, line: &[u8], at: usize, end: usize) -> Word
    requires { (end ≤ at) × (at ≤ length line.now) }
    ensures line_value { word_of result line.now ≡ number_read sort (take end line.now) (drop at line.now) }
    ensures apart { Apart result.end result.at line.now line.now }
{
    let most = most_of(sort);
    let n = number_at(line, at, sort == NAME, most);
    Word {
        good: (n.value <= most) & is_end(line, n.at),
        value: n.value,
        at: n.at,
        end,
    }
}

// Octets: so many, or any number of them.
fn octets_read(wanted: usize, line: &mut [u8], at: usize, end: usize) -> Word
    requires { (end ≤ at) × (at < length line.old) }
    ensures line_after { word_of result line.new ≡ octets_read wanted (take end line.old) (drop at line.old) }
    ensures apart { Apart result.end result.at line.old line.new }
{
    let p = octets_at(line, at, end);
    let next = end + p.count;
    Word {
        good: ((wanted == 0) | (p.count == wanted)) & is_end(line, p.at),
        value: next as u64,
        at: p.at,
        end: next,
    }
}

// A word of a sort.
fn word_read(sort: u8, line: &mut [u8], at: usize, end: usize) -> Word
    requires { (end ≤ at) × (at < length line.old) }
    ensures line_after { word_of result line.new ≡ word_read sort (take end line.old) (drop at line.old) }
    ensures apart { Apart result.end result.at line.old line.new }
{
    if ANY <= sort {
        octets_read((sort % 16) as usize, line, at, end)
    } else {
        number_read(sort, line, at, end)
    }
}

// ---- a line
fn start() -> Line
    ensures { ((l : List ℕ) → gathered result l ≡ begun l) × (result.at ≡ 0) × (result.end ≡ 0) }
{
    Line {
        understood: false,
        more: true,
        row: 0,
        sorts: 1,
        values: [0; VALUES],
        count: 0,
        at: 0,
        end: 0,
    }
}

// There is no word to come.
fn closed(s: Line, good: bool, at: usize) -> Line
    ensures { ((l : List ℕ) → gathered result l ≡ rule.line_ends (gathered s l) good (drop at l)) × (result.at ≡ at) × (result.end ≡ s.end) }
{
    Line {
        understood: good,
        more: false,
        at,
        ..s
    }
}

// Behind a name, which leads to a row.
fn named(s: Line, w: Word) -> Line
    ensures { ((l k : List ℕ) → gathered result l ≡ rule.named (gathered s k) (word_of w l) (row_of (name_after s.row w.value))) × (result.at ≡ w.at) × (result.end ≡ w.end) }
{
    let row = find((s.row % 256) as u64 * 36028797018963968 + w.value % 36028797018963968);
    Line {
        understood: false,
        more: w.good & (row != 0),
        row,
        sorts: sorts_of(row),
        at: w.at,
        end: w.end,
        ..s
    }
}

// Behind another word.
fn valued(s: Line, w: Word) -> Line
    ensures { ((l k : List ℕ) → gathered result l ≡ rule.valued (gathered s k) (word_of w l)) × (result.at ≡ w.at) × (result.end ≡ w.end) }
{
    let i = s.count % VALUES;
    let mut values = s.values;
    values[i] = w.value;
    Line {
        understood: false,
        more: w.good,
        sorts: s.sorts / 64,
        values,
        count: i + 1,
        at: w.at,
        end: w.end,
        ..s
    }
}

// Behind a word of a sort.
fn worded(s: Line, sort: u8, w: Word) -> Line
    ensures { ((l k : List ℕ) → gathered result l ≡ rule.worded (gathered s k) sort (word_of w l)) × (result.at ≡ w.at) × (result.end ≡ w.end) }
{
    if sort == NAME {
        named(s, w)
    } else {
        valued(s, w)
    }
}

// One word more.
fn step(s: Line, line: &mut [u8]) -> Line
    requires { (s.end ≤ s.at) × (s.at ≤ length line.old) }
    ensures line_after { gathered result line.new ≡ rule.step_on (gathered s line.old) }
    ensures apart { Apart result.end result.at line.old line.new }
{
    let sort = (s.sorts % 64) as u8;
    let at = skip(line, s.at);
    let last = is_last(line, at);
    if last | (sort == END) | (sort == SLOT_PARTS) {
        let may_lack = sort / 16 % 2 == 1;
        let good = (sort == SLOT_PARTS) | (((sort == END) | may_lack) & last);
        return closed(s, good, at);
    }
    let w = word_read(sort, line, at, s.end);
    worded(s, sort, w)
}

// More words than a line has, which are fifteen at most.
const WORDS: usize = 16;

// Reads a line.
pub fn read(line: &mut [u8]) -> Line
    ensures { Reads result line.old line.new }
{
    let mut s = start();
    for _ in 0..WORDS {
        if !s.more {
            return s;
        }
        s = step(s, line);
    }
    s
}

// Whether a line asks nothing: it has no word, or its first begins with `#`.
pub fn is_silent(line: &[u8]) -> bool
    ensures { result ≡ silent line.now }
{
    let at = skip(line, 0);
    line.len() <= at || line[at] == b'#'
}

// ---- the parts of a slot
// How many parts a slot has.
const PARTS: usize = 16;

// What a word says of a part, `NUMBER:LENGTH` or `NUMBER=LENGTH`: which of the slot's parts it is, counted from 0, whether it is held, its length,
// and the place behind the word.
#[derive(Clone, Copy)]
struct Part {
    index: usize,
    held: bool,
    length: u8,
    at: usize,
    ghost one_of_the_slot: { index < 16 },
}

// Whether there is no word from a place on.
fn is_done(line: &[u8], from: usize) -> bool {
    line.len() < from || is_last(line, skip(line, from))
}

// The next part from a place on, if the word there says one.
fn part_at(line: &[u8], from: usize) -> Option<Part> {
    if line.len() < from {
        return None;
    }
    let number = number_at(line, skip(line, from), false, 16);
    let held = match *line.get(number.at)? {
        b':' => true,
        b'=' => false,
        _ => return None,
    };
    if (number.value == 0) | (16 < number.value) {
        return None;
    }
    let behind = number.at + 1;
    let length = number_at(line, behind, false, 255);
    if (length.at == behind) | !is_end(line, length.at) {
        return None;
    }
    Some(Part {
        index: (number.value - 1) as usize,
        held,
        length: u8::try_from(length.value).ok()?,
        at: length.at,
    })
}

// The parts read so far, and which of them were given. They are arrays side by side since a slot has its lengths and what it holds so.
#[derive(Clone, Copy)]
pub struct Parts {
    pub lengths: [u8; PARTS],
    pub held: [bool; PARTS],
    given: [bool; PARTS],
}

impl Parts {
    fn none() -> Self {
        Parts {
            lengths: [0; PARTS],
            held: [false; PARTS],
            given: [false; PARTS],
        }
    }

    // One part more; none if it was given before.
    fn with(mut self, part: Part) -> Option<Self> {
        let i = part.index;
        if self.given[i] {
            return None;
        }
        self.given[i] = true;
        self.held[i] = part.held;
        self.lengths[i] = part.length;
        Some(self)
    }
}

// The parts from a place on, if each word there says one and none is given twice. A slot has so many parts, so that the last turn finds the line's
// end, or a part that was given before.
pub fn parts_in(line: &[u8], from: usize) -> Option<Parts> {
    let mut parts = Parts::none();
    let mut at = from;
    for _ in 0..=PARTS {
        if is_done(line, at) {
            return Some(parts);
        }
        let part = part_at(line, at)?;
        at = part.at;
        parts = parts.with(part)?;
    }
    None
}
