// What the library answered, as rows: a name, and the values behind it. `answers` prints a row. Of most rows nothing is promised but that every call is safe.
ghost use Rattle.std.specs.Prelude.{◌≡◌, ◌∷◌, [], cond, replicate, slice_get};
ghost use Rattle.std.specs.declared.option.Option.TheVariants.{Some, None};
ghost use Rattle.values.specs.declared.rows.Value.TheVariants.{Sender, Number, Pair};

use types::{
    Answer, Arrival, Clear, Closing, Cntr, Command, CommandBody, Kind, Opaque, Outgoing, Refusal,
    Response, ResponseBody, Spi, Tar, WrittenPart,
};

// One of the three buffers that a row is printed with.
#[derive(Clone, Copy)]
pub enum Buffer {
    First,
    Second,
    Third,
}

// What is printed behind a name.
#[derive(Clone, Copy)]
pub enum Value {
    // octets, as two digits each
    Octet(u8),
    Pair(u16),
    Sender(u32),
    Spi(Spi),
    Tar(Tar),
    Cntr(Cntr),
    // in decimal
    Number(u64),
    Name(&'static str),
    // octets of a buffer: all, so many from a place on, or how many there are at its start and then these
    Whole(Buffer),
    Part {
        of: Buffer,
        from: usize,
        count: usize,
    },
    Start {
        of: Buffer,
        count: usize,
    },
}

#[derive(Clone, Copy)]
pub struct Row {
    pub name: &'static str,
    pub values: [Option<Value>; 8],
}

impl Row {
    // A name and what is printed behind it: up to eight values. Where it is compiled into its callers, how many there are is known, and no test is left.
    #[inline(always)]
    pub fn new(name: &'static str, values: &[Value]) -> Row
        ensures named { result.name.now ≡ name.now }
        ensures placed { result.values ≡ slice_get values.now 0 ∷ slice_get values.now 1 ∷ slice_get values.now 2 ∷ slice_get values.now 3 ∷ slice_get values.now 4 ∷ slice_get values.now 5 ∷ slice_get values.now 6 ∷ slice_get values.now 7 ∷ [] }
    {
        Row {
            name,
            values: [
                values.get(0).copied(),
                values.get(1).copied(),
                values.get(2).copied(),
                values.get(3).copied(),
                values.get(4).copied(),
                values.get(5).copied(),
                values.get(6).copied(),
                values.get(7).copied(),
            ],
        }
    }
}

// `refused N`.
fn refusal(why: Refusal) -> Row {
    Row::new("refused", &[Value::Number(why.number() as u64)])
}

// `yes` or `no`.
pub fn whether(so: bool) -> Row
    ensures named { result.name.now ≡ cond so (121 ∷ 101 ∷ 115 ∷ []) (110 ∷ 111 ∷ []) }
    ensures placed { result.values ≡ replicate 8 None }
{
    Row::new(if so { "yes" } else { "no" }, &[])
}

// ---- packets
fn plain_command(c: Clear, p: types::PlainCommand) -> Row {
    Row::new(
        "plain",
        &[
            Value::Spi(c.spi),
            Value::Octet(c.kic),
            Value::Octet(c.kid),
            Value::Tar(c.tar),
            Value::Cntr(p.cntr),
            Value::Octet(p.pcntr),
            Value::Whole(Buffer::First),
            Value::Whole(Buffer::Second),
        ],
    )
}

fn ciphered_command(c: Clear, o: Opaque) -> Row {
    Row::new(
        "ciphered",
        &[
            Value::Spi(c.spi),
            Value::Octet(c.kic),
            Value::Octet(c.kid),
            Value::Tar(c.tar),
            Value::Number(o.header_length as u64),
            Value::Whole(Buffer::Third),
        ],
    )
}

// The fields of a command; of the buffers, the check field, the data and the opaque octets.
pub fn command(parsed: Result<Command, Refusal>) -> Row {
    match parsed {
        Ok(c) => match c.body {
            CommandBody::Plain(p) => plain_command(c.clear, p),
            CommandBody::Ciphered(o) => ciphered_command(c.clear, o),
        },
        Err(why) => refusal(why),
    }
}

fn plain_response(t: Tar, p: types::PlainResponse) -> Row {
    Row::new(
        "plain",
        &[
            Value::Tar(t),
            Value::Cntr(p.cntr),
            Value::Octet(p.pcntr),
            Value::Octet(p.status),
            Value::Whole(Buffer::First),
            Value::Whole(Buffer::Second),
        ],
    )
}

fn ciphered_response(t: Tar, o: Opaque) -> Row {
    Row::new(
        "ciphered",
        &[
            Value::Tar(t),
            Value::Number(o.header_length as u64),
            Value::Whole(Buffer::Third),
        ],
    )
}

// The fields of a response, likewise.
pub fn response(parsed: Result<Response, Refusal>) -> Row {
    match parsed {
        Ok(r) => match r.body {
            ResponseBody::Plain(p) => plain_response(r.tar, p),
            ResponseBody::Ciphered(o) => ciphered_response(r.tar, o),
        },
        Err(why) => refusal(why),
    }
}

// `parts CHECK DATA OPAQUE`.
pub fn shown() -> Row {
    Row::new(
        "parts",
        &[
            Value::Whole(Buffer::First),
            Value::Whole(Buffer::Second),
            Value::Whole(Buffer::Third),
        ],
    )
}

// What was written to the third buffer.
fn at_third(count: usize) -> Value {
    Value::Start {
        of: Buffer::Third,
        count,
    }
}

// What writing to the third buffer gave: a name, how many octets are at its start, and these.
pub fn written(name: &'static str, w: Result<usize, Refusal>) -> Row {
    match w {
        Ok(n) => Row::new(name, &[at_third(n)]),
        Err(why) => refusal(why),
    }
}

// `part TOTAL LENGTH OCTETS`.
pub fn written_part(w: Result<WrittenPart, Refusal>) -> Row {
    match w {
        Ok(WrittenPart { total, length }) => {
            Row::new("part", &[Value::Number(total as u64), at_third(length)])
        }
        Err(why) => refusal(why),
    }
}

// What goes out: `nothing`, `report LENGTH OCTETS`, `announce LENGTH OCTETS`, `submit`.
pub fn outgoing(o: Result<Outgoing, Refusal>) -> Row {
    match o {
        Ok(Outgoing::Nothing) => Row::new("nothing", &[]),
        Ok(Outgoing::Report { length }) => Row::new("report", &[at_third(length)]),
        Ok(Outgoing::Announcement { length }) => Row::new("announce", &[at_third(length)]),
        Ok(Outgoing::Submit) => Row::new("submit", &[]),
        Err(why) => refusal(why),
    }
}

// Whether a response says that another follows: `yes`, `no`.
pub fn announcing(a: Result<bool, Refusal>) -> Row {
    match a {
        Ok(so) => whether(so),
        Err(why) => refusal(why),
    }
}

// ---- counters
// `status SS`.
pub fn judgement(j: Result<u8, Refusal>) -> Row {
    match j {
        Ok(s) => Row::new("status", &[Value::Octet(s)]),
        Err(why) => refusal(why),
    }
}

// ` TAR CNTR`.
pub fn entry(e: types::CounterEntry) -> Row {
    Row::new("", &[Value::Tar(e.tar), Value::Cntr(e.cntr)])
}

// ---- outstanding commands
// `sent`, or refused.
pub fn sending(s: Result<(), Refusal>) -> Row {
    match s {
        Ok(()) => Row::new("sent", &[]),
        Err(why) => refusal(why),
    }
}

// `closed`, `waiting`, or refused.
pub fn closing(c: Result<Closing, Refusal>) -> Row {
    match c {
        Ok(Closing::Closed) => Row::new("closed", &[]),
        Ok(Closing::Waiting) => Row::new("waiting", &[]),
        Err(why) => refusal(why),
    }
}

// ` SENDER TAR CNTR`.
pub fn command_sent(c: types::SentCommand) -> Row {
    Row::new(
        "",
        &[
            Value::Sender(c.sender),
            Value::Tar(c.tar),
            Value::Cntr(c.cntr),
        ],
    )
}

// ---- series
// `SENDER WIDTH REFERENCE SERIAL IDENTIFIER`.
fn key(k: types::Key) -> [Value; 5]
    ensures { result ≡ Sender k.sender ∷ Number k.width ∷ Number k.reference ∷ Pair k.serial.0 ∷ Pair k.identifier.0 ∷ [] }
{
    [
        Value::Sender(k.sender),
        Value::Number(k.width as u64),
        Value::Number(k.reference as u64),
        Value::Pair(k.serial.0),
        Value::Pair(k.identifier.0),
    ]
}

// ` RANK BEATS SENDER WIDTH REFERENCE SERIAL IDENTIFIER TOTAL`.
pub fn slot(x: types::Slot) -> Row
    ensures named { result.name.now ≡ [] }
    ensures placed { result.values ≡ Some (Number x.rank) ∷ Some (Number x.beats) ∷ Some (Sender x.key.sender) ∷ Some (Number x.key.width) ∷ Some (Number x.key.reference) ∷ Some (Pair x.key.serial.0) ∷ Some (Pair x.key.identifier.0) ∷ Some (Number x.total) ∷ [] }
{
    let [sender, width, reference, serial, identifier] = key(x.key);
    Row::new(
        "",
        &[
            Value::Number(x.rank as u64),
            Value::Number(x.beats as u64),
            sender,
            width,
            reference,
            serial,
            identifier,
            Value::Number(x.total as u64),
        ],
    )
}

// `part SENDER WIDTH REFERENCE SERIAL IDENTIFIER TOTAL NUMBER START`.
fn arrived(k: types::Key, total: u8, number: u8, start: usize) -> Row {
    let [sender, width, reference, serial, identifier] = key(k);
    Row::new(
        "part",
        &[
            sender,
            width,
            reference,
            serial,
            identifier,
            Value::Number(total as u64),
            Value::Number(number as u64),
            Value::Number(start as u64),
        ],
    )
}

// `single START`, or `part ..`.
pub fn arrival(a: Result<Arrival, Refusal>) -> Row {
    match a {
        Ok(Arrival::Single { start }) => Row::new("single", &[Value::Number(start as u64)]),
        Ok(
            Arrival::Part {
                key,
                total,
                number,
                start,
            },
        ) => arrived(key, total, number, start),
        Err(why) => refusal(why),
    }
}

// `kept SLOT no`, `kept SLOT displaced`, `held SLOT`, or the packet in the second buffer.
pub fn answer(a: Result<Answer, Refusal>) -> Row {
    match a {
        Ok(Answer::Kept { slot, displaced }) => {
            let mark = if displaced { "displaced" } else { "no" };
            Row::new("kept", &[Value::Number(slot as u64), Value::Name(mark)])
        }
        Ok(Answer::HeldAlready { slot }) => Row::new("held", &[Value::Number(slot as u64)]),
        Ok(Answer::Packet { length }) => Row::new(
            "packet",
            &[Value::Start {
                of: Buffer::Second,
                count: length,
            }],
        ),
        Err(why) => refusal(why),
    }
}

// `fresh`, or refused.
pub fn made(a: Result<(), Refusal>) -> Row {
    match a {
        Ok(()) => Row::new("fresh", &[]),
        Err(why) => refusal(why),
    }
}

// `beat DROPPED`, or refused.
pub fn beating(b: Result<u8, Refusal>) -> Row {
    match b {
        Ok(n) => Row::new("beat", &[Value::Number(n as u64)]),
        Err(why) => refusal(why),
    }
}

// `record KIND`.
pub fn head(kind: Kind) -> Row {
    let name = match kind {
        Kind::Command => "command",
        Kind::Response => "response",
    };
    Row::new("record", &[Value::Name(name)])
}
