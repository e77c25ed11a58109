// Lines on the table of counters: an entry as it stands, the count in use, and judging.
ghost use Rattle.std.specs.Prelude.{◌≡◌, ◌<◌, ◌%◌, cond, eqb};
ghost use Rattle.values.specs.Tables.{entry_of, with_entry, with_in_use, counters_by};

use types::{CounterEntry, Counters, JudgedCounter};
use words::table;

// TAR and CNTR are the eight octets of the line.
fn entry_of(octets: &[u8]) -> CounterEntry
    ensures { result ≡ entry_of octets.now }
{
    let cntr = skelmarix::own_octets(octets, 3);
    CounterEntry {
        tar: crate::fields::tar_of(octets),
        cntr: crate::fields::cntr_of(cntr),
    }
}

fn with_entry(c: Counters, i: usize, e: CounterEntry) -> Counters
    requires { i < 16 }
    ensures { result ≡ with_entry c i e }
{
    let mut d = c;
    d.entries[i] = e;
    d
}

// With another count in use, if the line has one.
fn in_use(c: Counters, count: usize, n: usize) -> Counters
    ensures { result ≡ cond (eqb count 0) c (with_in_use c (n % 256)) }
{
    let mut d = c;
    if count != 0 {
        d.count = (n % 256) as u8;
    }
    d
}

// A table that nothing is answered of.
fn unjudged(c: Counters) -> JudgedCounter
    ensures { result.counters ≡ c }
{
    JudgedCounter {
        answer: Ok(0),
        counters: c,
    }
}

// The table as a line leaves it, and what judging answers.
pub fn after(row: usize, count: usize, n: usize, octets: &[u8], c: Counters) -> JudgedCounter
    ensures { result.counters ≡ counters_by row count n octets.now c }
{
    if row == table::COUNTER {
        return unjudged(with_entry(c, n % 16, entry_of(octets)));
    }
    if row == table::COUNTERS {
        return unjudged(in_use(c, count, n));
    }
    skelmarix::judge_counter(c, octets)
}
