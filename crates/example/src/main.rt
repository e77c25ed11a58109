#![tactic(auto)]
// How the library is used: a server notes a command and sends it; a card takes it in three parts, out of order, reads it and answers, first with a
// report that says that the response follows, and then with the response in parts; the server takes both, and the response closes the command. It
// prints what happens.
use skelmarix::{
    Answer, CELLS_OCTETS, Clear, Closing, Cntr, Kind, Outgoing, Outstanding, PACKET_OCTETS,
    PRESENT_EDITION, Spi, Taken, Tar, USER_DATA_OCTETS, command_sent, first_octets, no_commands,
    packet_in, part_in, written_in,
};
use std::io;
use types::Refusal;

// ---- printing
fn say(rt: HostRuntime, words: &str, number: usize) -> io::Result<()> {
    println!(rt; "{words}{number}")
}

fn tell(rt: HostRuntime, part: u32, answer: Result<Answer, Refusal>) -> io::Result<()> {
    say(rt, "  part ", part as usize)?;
    match answer {
        Ok(Answer::Kept { slot, displaced }) => say(rt, "    is kept, in slot ", slot),
        Ok(Answer::HeldAlready { slot }) => say(rt, "    is held already, in slot ", slot),
        Ok(Answer::Packet { length }) => say(rt, "    completes the packet, octets: ", length),
        Err(why) => say(rt, "    is refused, number ", why.number() as usize),
    }
}

// ---- the way over the air
// Splits a packet into parts and takes them, the second first. The packet is at the start of `out` if the answer says so.
fn carry(
    rt: HostRuntime,
    kind: Kind,
    packet: &[u8],
    out: &mut [u8],
) -> io::Result<Result<Answer, Refusal>> {
    let mut cells = [0; CELLS_OCTETS];
    let mut ud = [0; USER_DATA_OCTETS];
    let mut taken = Taken {
        answer: Ok(Answer::Packet { length: 0 }),
        record: skelmarix::fresh_record(kind),
    };
    for number in [2, 3, 1] {
        // 8-bit reference 42: one number for all parts of a packet
        let part = skelmarix::write_message(kind, 8, 42, number, packet, &mut ud);
        // 7 is the number of the sender
        taken = skelmarix::take_message(taken.record, 7, part_in(part, &ud), &mut cells, out);
        let answer = taken.answer;
        tell(rt, number, answer)?;
    }
    Ok(taken.answer)
}

// ---- the card
// Reads the command and builds the response to it in `out`; answers how many octets it has.
fn respond(rt: HostRuntime, command: &[u8], out: &mut [u8]) -> io::Result<usize> {
    match skelmarix::parse_command(command) {
        Err(why) => {
            say(rt, "The command is refused, number ", why.number() as usize)?;
            Ok(0)
        }
        Ok(fields) => {
            say(
                rt,
                "The card reads the command; octets of data: ",
                skelmarix::command_data(command).len(),
            )?;
            let clear = fields.clear;
            let readings = [0x17; 250];
            let check = [0; 8];
            let built = skelmarix::build_response(
                clear.tar,
                Cntr(0, 0, 0, 0, 1),
                0,
                0,
                &check,
                &readings,
                out,
            );
            Ok(written_in(built, out).len())
        }
    }
}

// Says in a delivery report of 140 octets what becomes of the response, and takes the report as the server does.
fn report(spi: Spi, response: &[u8], out: &mut [u8]) -> Result<Answer, Refusal> {
    let mut cells = [0; CELLS_OCTETS];
    let mut ud = [0; USER_DATA_OCTETS];
    let going = skelmarix::write_report(spi, USER_DATA_OCTETS, PRESENT_EDITION, response, &mut ud);
    let n = in_report(going);
    let record = skelmarix::fresh_record(Kind::Response);
    let taken = skelmarix::take_message(record, 7, first_octets(&ud, n), &mut cells, out);
    taken.answer
}

// How many octets of a report there are.
fn in_report(going: Result<Outgoing, Refusal>) -> usize {
    match going {
        Ok(Outgoing::Report { length } | Outgoing::Announcement { length }) => length,
        Ok(Outgoing::Nothing | Outgoing::Submit) | Err(_) => 0,
    }
}

// ---- the server
// What a response does to its command, and the table afterwards.
fn hear(rt: HostRuntime, outstanding: Outstanding, response: &[u8]) -> io::Result<Outstanding> {
    let after = skelmarix::response_came(outstanding, 7, response);
    let table = after.outstanding;
    let answer = after.answer;
    match answer {
        Ok(Closing::Closed) => say(
            rt,
            "The command is closed; still waiting: ",
            table.count as usize,
        )?,
        Ok(Closing::Waiting) => say(
            rt,
            "Another response follows; still waiting: ",
            table.count as usize,
        )?,
        Err(why) => say(
            rt,
            "The response is refused, number ",
            why.number() as usize,
        )?,
    }
    Ok(table)
}

fn main(rt: HostRuntime) -> io::Result<()> {
    let mut sent = [0; PACKET_OCTETS];
    let mut received = [0; PACKET_OCTETS];
    let clear = Clear {
        spi: Spi(0x02, 0x01),
        kic: 0x15,
        kid: 0x15,
        tar: Tar(0xB0, 0x00, 0x10),
    };
    let data = [0x5A; 300];
    let check = [0; 8];
    let built = skelmarix::build_command(clear, Cntr(0, 0, 0, 0, 1), 0, &check, &data, &mut sent);
    say(
        rt,
        "The server sends a command; octets: ",
        written_in(built, &sent).len(),
    )?;
    let noted = command_sent(no_commands(), 7, clear.tar, Cntr(0, 0, 0, 0, 1));
    let answer = carry(rt, Kind::Command, written_in(built, &sent), &mut received)?;
    let n = respond(rt, packet_in(answer, &received), &mut sent)?;
    say(rt, "The card answers; octets: ", n)?;
    let answer = report(clear.spi, first_octets(&sent, n), &mut received);
    let table = hear(rt, noted.outstanding, packet_in(answer, &received))?;
    let answer = carry(rt, Kind::Response, first_octets(&sent, n), &mut received)?;
    say(
        rt,
        "The server has the response; octets of data: ",
        skelmarix::response_data(packet_in(answer, &received), false).len(),
    )?;
    hear(rt, table, packet_in(answer, &received))?;
    Ok(())
}
