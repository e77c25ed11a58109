// Questions on what is in a buffer.
use crate::rows::{Buffer, Row, Value};
use words::line::Line;
use words::table;

// The row of the table between those of the cells and of the buffer.
const OUTPUT: usize = table::CELLS + 1;

// The buffer that a line asks for, and its name.
fn asked(row: usize) -> Option<(&'static str, Buffer)> {
    match row {
        table::CELLS => Some(("cells", Buffer::First)),
        OUTPUT => Some(("output", Buffer::Second)),
        table::BUFFER => Some(("buffer", Buffer::Third)),
        _ => None,
    }
}

// Octets of a buffer if a line asks for them, and otherwise the row that was made of it.
pub fn part_or(l: Line, made: Row) -> Row {
    let Some((name, of)) = asked(l.row) else {
        return made;
    };
    let [from, count, ..] = l.values;
    Row::new(
        name,
        &[Value::Part {
            of,
            from: from as usize,
            count: count as usize,
        }],
    )
}
