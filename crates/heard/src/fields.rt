// What reading a packet answers, as fields and numbers that the caller lends.
ghost use Rattle.std.specs.Prelude.{◌≡◌};
ghost use Rattle.packet.specs.Packets.{plain_parsed, ciphered_parsed};
ghost use Rattle.packet.specs.Told.{clear_octets, command_fixed, command_fields, response_fields, told_command, told_response};
ghost use Rattle.heard.specs.Heard.{numbers_heard, heard_parsed};

use crate::{COMMAND_FIELDS, RESPONSE_FIELDS, hear};
use types::{
    Clear, Command, CommandBody, Kind, Opaque, PlainCommand, Refusal, Response, ResponseBody,
};

// The fields up to the check field, and what the body is: of a plain command, of a ciphered one, of either, and of a response.
fn put_plain_command(
    x: Clear,
    p: PlainCommand,
    fields: &mut [u8; COMMAND_FIELDS],
    body: &mut [usize; 3],
)
    ensures { (fields.new, body.new) ≡ numbers_heard Kind.Command (plain_parsed (command_fixed x p.cntr p.pcntr) p.check_length p.data_length) }
{
    let spi = x.spi;
    let tar = x.tar;
    let n = p.cntr;
    *fields = [
        spi.0, spi.1, x.kic, x.kid, tar.0, tar.1, tar.2, n.0, n.1, n.2, n.3, n.4, p.pcntr,
    ];
    *body = [0, p.check_length, p.data_length];
}

fn put_ciphered_command(
    x: Clear,
    o: Opaque,
    fields: &mut [u8; COMMAND_FIELDS],
    body: &mut [usize; 3],
)
    ensures { (fields.new, body.new) ≡ numbers_heard Kind.Command (ciphered_parsed (clear_octets x) o.header_length o.opaque_length) }
{
    let spi = x.spi;
    let tar = x.tar;
    *fields = [
        spi.0, spi.1, x.kic, x.kid, tar.0, tar.1, tar.2, 0, 0, 0, 0, 0, 0,
    ];
    *body = [1, o.header_length as usize, o.opaque_length];
}

fn put_command(c: Command, fields: &mut [u8; COMMAND_FIELDS], body: &mut [usize; 3])
    ensures { (fields.new, body.new) ≡ numbers_heard Kind.Command (command_fields c.clear c.body) }
{
    let b = c.body;
    match b {
        CommandBody::Plain(p) => put_plain_command(c.clear, p, fields, body),
        CommandBody::Ciphered(o) => put_ciphered_command(c.clear, o, fields, body),
    }
}

fn put_response(c: Response, fields: &mut [u8; RESPONSE_FIELDS], body: &mut [usize; 3])
    ensures { (fields.new, body.new) ≡ numbers_heard Kind.Response (response_fields c.tar c.body) }
{
    let tar = c.tar;
    let b = c.body;
    match b {
        ResponseBody::Plain(p) => {
            let n = p.cntr;
            *fields = [
                tar.0, tar.1, tar.2, n.0, n.1, n.2, n.3, n.4, p.pcntr, p.status,
            ];
            *body = [0, p.check_length, p.data_length];
        }
        ResponseBody::Ciphered(o) => {
            *fields = [tar.0, tar.1, tar.2, 0, 0, 0, 0, 0, 0, 0];
            *body = [1, o.header_length as usize, o.opaque_length];
        }
    }
}

// What reading a command answers.
pub fn command(
    a: Result<Command, Refusal>,
    fields: &mut [u8; COMMAND_FIELDS],
    body: &mut [usize; 3],
) -> u32
    ensures { (result, (fields.new, body.new)) ≡ heard_parsed Kind.Command (told_command a) }
{
    match a {
        Ok(c) => {
            put_command(c, fields, body);
            0
        }
        Err(why) => {
            *fields = [0; COMMAND_FIELDS];
            *body = [0, 0, 0];
            hear::refusal(why)
        }
    }
}

// What reading a response answers.
pub fn response(
    a: Result<Response, Refusal>,
    fields: &mut [u8; RESPONSE_FIELDS],
    body: &mut [usize; 3],
) -> u32
    ensures { (result, (fields.new, body.new)) ≡ heard_parsed Kind.Response (told_response a) }
{
    match a {
        Ok(c) => {
            put_response(c, fields, body);
            0
        }
        Err(why) => {
            *fields = [0; RESPONSE_FIELDS];
            *body = [0, 0, 0];
            hear::refusal(why)
        }
    }
}
