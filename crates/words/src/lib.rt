#![tactic(auto)]
// A line's words, read from the front: blanks passed, a name or a number, octets. What a whole line says is read by `line::read`.
pub mod input;
pub mod line;
pub mod table;

ghost use Rattle.std.specs.Prelude.{◌≡◌, false, ◌≤◌, ◌<◌, length, drop, not, position, MatchOption};
ghost use Rattle.words.specs.Words as rule;
ghost use Rattle.words.specs.Words.{is_blank, skipped, ended, is_empty, is_digit, with_digit, hex_of, octet_of, octets_at, behind_octets, word_octets, behind_word, Counted, Paired};

// The number that was read, and the place behind it.
#[derive(Clone, Copy)]
pub struct Number {
    pub value: u64,
    pub at: usize,
}

// How many octets were read, and the place behind them.
#[derive(Clone, Copy)]
pub(crate) struct Pairs {
    pub(crate) count: usize,
    pub(crate) at: usize,
}

// ---- blanks
// Whether a character parts words.
fn is_blank(x: u8) -> bool
    ensures { result ≡ is_blank x }
{
    matches!(x, b' ' | b'\t' | b'\r')
}

// Where the first character is that is no blank.
fn first_word(text: &[u8]) -> Option<usize>
    ensures { result ≡ position (λ x. not (is_blank x)) text.now }
{
    text.iter().position(|x| !is_blank(*x))
}

// The next place where there is no blank.
pub(crate) fn skip(line: &[u8], from: usize) -> usize
    requires { from ≤ length line.now }
    ensures line_value { drop result line.now ≡ skipped (drop from line.now) }
    ensures lower_bound { (from ≤ result) × (result ≤ length line.now) }
{
    match first_word(&line[from..]) {
        Some(n) => from + n,
        None => line.len(),
    }
}

// Whether a word ends at a place.
pub(crate) fn is_end(line: &[u8], at: usize) -> bool
    ensures { result ≡ ended (drop at line.now) }
{
    line.get(at).is_none_or(|x| is_blank(*x))
}

// Whether the line ends at a place.
pub(crate) fn is_last(line: &[u8], at: usize) -> bool
    ensures { (result ≡ is_empty (drop at line.now)) × (result ≡ false → at < length line.now) }
{
    line.len() <= at
}

// ---- names and numbers
// Whether a character is a letter of a name, or a digit of a number.
fn is_digit(name: bool, x: u8) -> bool
    ensures { result ≡ is_digit name x }
{
    if name {
        x.is_ascii_alphabetic()
    } else {
        x.is_ascii_digit()
    }
}

// A number with one digit more.
fn with_digit(name: bool, n: u64, x: u8) -> u64
    requires { n ≤ 36028797018963968 }
    ensures { result ≡ with_digit name n x }
{
    if name {
        n * 32 + u64::from(x % 32)
    } else {
        n * 10 + u64::from(x % 16)
    }
}

// The same, but every number above `most` counts as one more than that.
fn shifted(name: bool, most: u64, n: u64, x: u8) -> u64
    requires { (most ≤ 36028797018963967) × (n ≤ 36028797018963968) }
    ensures { (result ≡ rule.shifted name most n x) × (result ≤ 36028797018963968) }
{
    let v = with_digit(name, n, x);
    if v <= most { v } else { most + 1 }
}

// The name, or the number, at a place.
pub(crate) fn number_at(line: &[u8], from: usize, name: bool, most: u64) -> Number
    requires { (from ≤ length line.now) × (most ≤ 36028797018963967) }
    ensures { Counted name most from line.now result }
{
    let mut value = 0;
    for at in from..line.len() {
        let x = line[at];
        if !is_digit(name, x) {
            return Number { value, at };
        }
        value = shifted(name, most, value, x);
    }
    Number {
        value,
        at: line.len(),
    }
}

// ---- octets
// The value of a hexadecimal digit.
fn hex_of(x: u8) -> u16
    ensures { result ≡ hex_of x }
{
    (x % 16) as u16 + 9 * (x / 64) as u16
}

// The octet that two digits are; none if one is no digit, for which the rule has 256.
fn octet_of(high: u8, low: u8) -> Option<u8>
    ensures { MatchOption result (octet_of high low ≡ 256) (λ x. (x ≡ octet_of high low) × (x < 256)) }
{
    if high.is_ascii_hexdigit() & low.is_ascii_hexdigit() {
        Some((hex_of(high) * 16 + hex_of(low)) as u8)
    } else {
        None
    }
}

// Reads pairs of digits from a place on, to the place `end` of the line and behind it, which is not farther.
fn pairs_at(line: &mut [u8], from: usize, end: usize) -> Pairs
    requires { (end ≤ from) × (from ≤ length line.old) }
    ensures { Paired (octets_at (drop from line.old)) (behind_octets (drop from line.old)) end line.old result line.new }
{
    let most = (line.len() - from) / 2;
    for count in 0..most {
        let at = from + 2 * count;
        let Some(x) = octet_of(line[at], line[at + 1]) else {
            return Pairs { count, at };
        };
        line[end + count] = x;
    }
    Pairs {
        count: most,
        at: from + 2 * most,
    }
}

// Reads octets, `-` for none.
pub(crate) fn octets_at(line: &mut [u8], from: usize, end: usize) -> Pairs
    requires { (end ≤ from) × (from < length line.old) }
    ensures { Paired (word_octets (drop from line.old)) (behind_word (drop from line.old)) end line.old result line.new }
{
    if line[from] == b'-' {
        Pairs {
            count: 0,
            at: from + 1,
        }
    } else {
        pairs_at(line, from, end)
    }
}
