#![tactic(auto)]
// The card's engine and the plain one, behind the lines of the bench: what is kept of each, and the lines that each answers by calls of its own. What
// they keep and answer is held to stored lines.
use types::{Kind, LOG_OCTETS, Log, Record, Refusal, STATE_OCTETS};
use values::rows::{Row, Value};
use values::{meaning, rows};
use words::table;

// The number of the card's engine; the plain one has the next.
pub const CARD: usize = 1;

// What is kept of the two: the state of the card's, the plain one's log. Cells and entries are lent.
#[derive(Clone, Copy)]
pub struct Others {
    pub state: [u8; STATE_OCTETS],
    pub log: Log,
}

// What is kept afterwards, and the answer.
#[derive(Clone, Copy)]
pub struct Changed {
    pub others: Others,
    pub row: Row,
}

// A fresh state and a fresh log, for commands, of five slots.
pub fn start() -> Others {
    let mut state = [0u8; STATE_OCTETS];
    // a state can have five slots, so this is not refused
    let _ = skelmarix::fresh_state(&mut state, Kind::Command, types::SLOTS as u8);
    let made = skelmarix::fresh_log(Kind::Command, types::SLOTS as u8);
    let log = made.log;
    Others { state, log }
}

fn with_state(o: Others, state: [u8; STATE_OCTETS], row: Row) -> Changed {
    let log = o.log;
    Changed {
        others: Others { state, log },
        row,
    }
}

fn with_log(o: Others, log: Log, row: Row) -> Changed {
    let state = o.state;
    Changed {
        others: Others { state, log },
        row,
    }
}

// ---- records
// What an engine holds, as a record.
pub fn record_in(e: usize, o: Others, entries: &[u8]) -> Record {
    if e == CARD {
        let state = o.state;
        return skelmarix::state_record(&state);
    }
    skelmarix::log_record(o.log, skelmarix::first_octets(entries, LOG_OCTETS))
}

// The card's engine with that record.
pub fn with_record(o: Others, r: Record) -> Others {
    let mut state = o.state;
    skelmarix::state_put(r, &mut state);
    let log = o.log;
    Others { state, log }
}

// ---- taking
fn card_takes(
    message: bool,
    sender: u32,
    own: &[u8],
    o: Others,
    cells: &mut [u8],
    output: &mut [u8],
) -> Changed {
    let mut state = o.state;
    if message {
        let answer = skelmarix::state_take_message(&mut state, sender, own, cells, output);
        return with_state(o, state, rows::answer(answer));
    }
    let answer = skelmarix::state_take_page(&mut state, own, cells, output);
    with_state(o, state, rows::answer(answer))
}

fn plain_takes(
    message: bool,
    sender: u32,
    own: &[u8],
    o: Others,
    entries: &mut [u8],
    output: &mut [u8],
) -> Changed {
    if message {
        let t = skelmarix::log_take_message(o.log, sender, own, entries, output);
        let answer = t.answer;
        return with_log(o, t.log, rows::answer(answer));
    }
    let t = skelmarix::log_take_page(o.log, own, entries, output);
    let answer = t.answer;
    with_log(o, t.log, rows::answer(answer))
}

// The right number of octets of the cells, or of the log.
fn right(e: usize, o: Others) -> usize {
    if e == CARD {
        let state = o.state;
        let r = skelmarix::state_record(&state);
        return r.count as usize * types::SLOT_OCTETS;
    }
    LOG_OCTETS
}

// How many octets are lent of the cells, or of the log, by the line before.
fn lent_of(e: usize, lent: [usize; 4]) -> usize {
    if e == CARD { lent[0] } else { lent[3] }
}

// Takes a message or a page.
fn take(
    e: usize,
    row: usize,
    octets: &[u8],
    lent: [usize; 4],
    o: Others,
    cells: &mut [u8],
    output: &mut [u8],
) -> Changed {
    let message = meaning::way_of(row, octets) == table::MESSAGE;
    let sender = values::fields::sender_of(octets);
    let own = skelmarix::own_octets(octets, meaning::own_at(row));
    let n = lines::lent(lent_of(e, lent), right(e, o), cells.len());
    let m = lines::lent(lent[1], types::PACKET_OCTETS, output.len());
    if e == CARD {
        return card_takes(message, sender, own, o, &mut cells[0..n], &mut output[0..m]);
    }
    plain_takes(message, sender, own, o, &mut cells[0..n], &mut output[0..m])
}

// ---- a fresh record
fn fresh_of(e: usize, kind: Kind, n: u8, o: Others) -> Result<Others, Refusal> {
    if e == CARD {
        let mut state = o.state;
        skelmarix::fresh_state(&mut state, kind, n)?;
        return Ok(Others { state, ..o });
    }
    let made = skelmarix::fresh_log(kind, n);
    made.answer?;
    Ok(Others { log: made.log, ..o })
}

// The same with cells, or log, and output all 00; what the library refuses to make changes nothing.
fn fresh(e: usize, kind: Kind, n: u8, o: Others, cells: &mut [u8], output: &mut [u8]) -> Changed {
    match fresh_of(e, kind, n, o) {
        Ok(others) => {
            lines::fill(cells, 0);
            lines::fill(output, 0);
            Changed {
                others,
                row: rows::made(Ok(())),
            }
        }
        Err(why) => Changed {
            others: o,
            row: rows::made(Err(why)),
        },
    }
}

// ---- the beat
fn beaten(e: usize, limit: u8, lent: [usize; 4], o: Others, entries: &mut [u8]) -> Changed {
    if e == CARD {
        let mut state = o.state;
        let answer = skelmarix::state_beat(&mut state, limit);
        return with_state(o, state, rows::beating(answer));
    }
    let n = lines::lent(lent[3], LOG_OCTETS, entries.len());
    let t = skelmarix::log_beat(o.log, limit, &mut entries[0..n]);
    let answer = t.answer;
    with_log(o, t.log, rows::beating(answer))
}

// ---- tests, and logs as a line says
// Whether the state is one that the library could have made.
fn formed(o: Others) -> Changed {
    let state = o.state;
    with_state(o, state, rows::whether(skelmarix::state_formed(&state)))
}

// The first octets of entry n of the log, or how many entries there are, as the line says.
fn noted(row: usize, n: usize, octets: &[u8], o: Others, entries: &mut [u8]) -> Changed {
    if row == table::ENTRY {
        skelmarix::put_octets(
            octets,
            entries,
            n % types::LOG_ENTRIES * types::ENTRY_OCTETS,
        );
        return with_log(o, o.log, Row::new("entry", &[Value::Number(n as u64)]));
    }
    let mut log = o.log;
    log.count = (n % 256) as u8;
    with_log(o, log, Row::new("entries", &[Value::Number(n as u64)]))
}

// ---- by the row
// Whether an engine answers a line by a call of its own; any other line the bench answers, with what the engine holds as a record.
pub fn is_own(row: usize) -> bool {
    (row < table::FILL)
        | (row == table::FORMED)
        | (row == table::BEAT)
        | (row == table::CAPTURED)
        | (table::LEND_LOG < row)
}

// Answers such a line: the card's engine over its cells, the plain one over the entries of its log.
pub fn change(
    e: usize,
    row: usize,
    count: usize,
    n: usize,
    octets: &[u8],
    lent: [usize; 4],
    o: Others,
    cells: &mut [u8],
    output: &mut [u8],
) -> Changed {
    if (row < 3) | (row == table::CAPTURED) {
        return take(e, row, octets, lent, o, cells, output);
    }
    if row < table::FILL {
        let kind = values::fields::kind_of(row == table::FRESH_RESPONSE);
        return fresh(e, kind, meaning::slots_asked(count, n), o, cells, output);
    }
    if row == table::BEAT {
        return beaten(e, (n % 256) as u8, lent, o, cells);
    }
    if row == table::FORMED {
        return formed(o);
    }
    noted(row, n, octets, o, cells)
}
