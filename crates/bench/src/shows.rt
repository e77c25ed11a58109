// Questions on what is kept: the record and the tables.
use answers::record;
use changes::Bench;
use values::rows;
use words::table;

// Whether the answer to a line is what is kept: the record, or a table.
pub(crate) fn is_shown(row: usize) -> bool {
    ((table::SLOT < row) & (row < table::CELLS))
        | (row == table::COUNTER)
        | (row == table::COUNTERS)
        | (row == table::OUTSTANDING)
}

// Prints that answer.
pub(crate) fn kept(row: usize, b: Bench, text: &mut [u8], at: usize) -> usize {
    if row == table::RECORD {
        return record::record(b.record, text, at);
    }
    if row < table::CELLS {
        let formed = rows::whether(skelmarix::record_formed(b.record));
        return record::alone(formed, text, at);
    }
    if row == table::OUTSTANDING {
        return record::outstanding(b.outstanding, text, at);
    }
    record::counters(b.counters, text, at)
}
