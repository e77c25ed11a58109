#![tactic(auto)]
// ./run replay [-n] [FILE..] reads calls of the library from the files, or from standard input if there is none, one call a line, makes them on
// one record, and prints one line an answer. -n puts the line's number before each answer. Lines that were not understood, or too long, are
// counted on standard error at the end. docs/BENCH.md has the lines and their answers.
use session::Session;
use words::input;
use words::input::Source;

// Reads to the end of the last input, and says how many lines were not understood or too long. A turn takes a line of the piece, or reads on.
// A proved loop has to end, and nothing says that input does: so it counts its turns down, from a number that no run uses up.
fn read_all(
    rt: HostRuntime,
    mut s: Session,
    source: &mut Source,
    piece: &mut [u8],
    cells: &mut [u8],
    output: &mut [u8],
    buffer: &mut [u8],
    text: &mut [u8],
) -> u64 {
    let mut turns = u64::MAX;
    while turns > 0 {
        turns -= 1;
        if !input::goes_on(s.tally.input) {
            return s.tally.wrong;
        }
        let line = session::piece::next_line(piece, s.tally.input.from, s.tally.input.count);
        if s.tally.input.count <= line.end {
            s = session::with_tally(s, session::refill(rt, s.tally, source, piece, text));
            continue;
        }
        let from = line.from;
        let last = line.last;
        let end = line.end;
        s = session::take(
            rt,
            &mut piece[from..last],
            end,
            s,
            cells,
            output,
            buffer,
            text,
        );
    }
    0
}

// How many lines there were that were not understood or too long, on standard error.
fn report(rt: HostRuntime, wrong: u64) {
    if wrong == 0 {
        return;
    }
    let _ = eprintln!(rt; "replay: lines not understood or too long: {wrong}");
}

fn main(rt: HostRuntime) {
    let mut source = Source::Standard;
    let mut piece = [0u8; 65536];
    let mut cells = [0u8; 49152];
    let mut output = [0u8; 49152];
    let mut buffer = [0u8; 16384];
    let mut text = [0u8; 65536];
    let wrong = read_all(
        rt,
        session::start(rt, input::is_flag(rt), &mut source),
        &mut source,
        &mut piece,
        &mut cells,
        &mut output,
        &mut buffer,
        &mut text,
    );
    report(rt, wrong);
}
