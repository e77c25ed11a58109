// Lines in a piece of input.
ghost use Rattle.std.specs.Prelude.{◌≤◌, length};

// A line in the piece: from where to where it is, without the carriage return that some files have before its end, and where its end is.
#[derive(Clone, Copy)]
pub struct Span {
    pub from: usize,
    pub last: usize,
    pub end: usize,
}

fn without_return(piece: &[u8], from: usize, end: usize) -> usize
    requires { (from ≤ end) × (end ≤ length piece.now) }
    ensures { (from ≤ result) × (result ≤ length piece.now) }
{
    if from < end {
        if piece[end - 1] == 13 {
            return end - 1;
        }
    }
    end
}

// The place of the first line feed from a place on, among so many characters; if there is none, where they end.
fn line_feed(piece: &[u8], from: usize, count: usize) -> usize
    requires { (from ≤ count) × (count ≤ length piece.now) }
    ensures { (from ≤ result) × (result ≤ length piece.now) }
{
    for at in from..count {
        if piece[at] == 10 {
            return at;
        }
    }
    count
}

// The next line from a place on, among so many characters. If none ends there, its end is where they end.
pub fn next_line(piece: &[u8], from: usize, count: usize) -> Span
    ensures { (result.from ≤ result.last) × (result.last ≤ length piece.now) }
{
    if from <= count {
        if count <= piece.len() {
            let end = line_feed(piece, from, count);
            let last = without_return(piece, from, end);
            return Span { from, last, end };
        }
    }
    Span {
        from: 0,
        last: 0,
        end: count,
    }
}
