#![tactic(auto)]
// The types that users of the library meet, in one place: whoever looks into one of them lists this crate beside `skelmarix`.
ghost use Rattle.std.specs.Prelude.{◌≡◌};
ghost use Rattle.types.specs.Refusals.{refusal_number};

// Which way a packet goes: to the card, or back from it.
#[derive(Clone, Copy, PartialEq, Eq)]
pub enum Kind {
    Command,
    Response,
}

// Why a call was refused: its number, its condition, and the calls that give it. `Refusals.antt` has the numbers as a rule.
#[derive(Clone, Copy, PartialEq, Eq)]
pub enum Refusal {
    // 1: a lent buffer of another length than it must have, a record that is not well formed, or a table of commands that says that more than 8
    // entries are in use, or in which two of those are equal. Taking, building, checksum octets, writing, reporting, sending a command, a response
    // that came, salvaging, writing and summing a USSD string; the beat.
    BufferOrRecord,
    // 2: user data of more than 140 octets, a page of other than 88, or a USSD string of more than 160. Taking, reading.
    InputLength,
    // 3: user data that are empty, a header length not below theirs, or an element that runs past the header's end. Taking, reading: messages.
    HeaderOverrun,
    // 4: a concatenation or packet identifier element of a wrong length; a page whose number is above its total. Taking, reading.
    HeaderElement,
    // 5: a packet identifier that is missing, out of place or of the other kind; a page for a record of responses; a message identifier
    // outside 1080 to 109F; a USSD string with another data coding scheme, PFI or identifier. Taking, reading, writing a page.
    WrongIdentifier,
    // 6: more than sixteen parts. Taking, reading: messages.
    TooManyParts,
    // 7: the series is held with another total. Taking.
    OtherTotal,
    // 8: the part is held with other octets. Taking.
    OtherOctets,
    // 9: octets that are no well-formed packet, or not of the length that its pages allow; a UM that is not well formed, and for its checksum octets one
    // that is too long or has another identifier. Taking, parsing, checksum octets, writing, reporting, judging a counter, a response that
    // came, reading a USSD string.
    MalformedPacket,
    // 10: a plain body although SPI says ciphered, or the other way round; checksum octets of a ciphered packet, or its counter judged. Building a
    // command, checksum octets, judging a counter, writing a USSD string.
    CipherMismatch,
    // 11: a check field, a header length or opaque octets that the header of a packet cannot have. Building, writing a USSD string.
    PacketHeader,
    // 12: a packet longer than can be carried: 2,142 octets, 2,126 with references of 16 bits, 1,230 in pages, a UM of 159. Parsing, building,
    // checksum octets, writing, reporting, judging a counter, a response that came, writing a USSD string.
    PacketTooLong,
    // 13: a width other than 8 and 16, or a reference that does not fit it. Writing a message.
    ReferenceWidth,
    // 14: a part or page of number 0, or of a number above the total. Writing.
    PartNumber,
    // 15: the check bits of a plain command's SPI say that nothing is checked and there is a check field, or the other way round. Parsing,
    // building, checksum octets, judging a counter, reading and writing a USSD string: commands.
    CheckMismatch,
    // 16: a capacity of a delivery report outside 16 to 140 octets. Reporting.
    ReportCapacity,
    // 17: the reserved value 11 in the low two bits of SPI's second octet. Reporting.
    ReservedSpi,
    // 18: a beat with the limit 0. The beat.
    BeatLimit,
    // 19: a table of counters that says that more than 16 entries are in use, or in which one TAR is named twice among them. Judging a counter.
    CounterTable,
    // 20: an edition that is neither the old nor the present one. Reporting.
    UnknownEdition,
    // 21: a table of eight commands that all wait for their response. Sending a command.
    TableFull,
    // 22: a command that waits already, with the same sender, TAR and CNTR. Sending a command.
    AlreadySent,
    // 23: a response that equals no command that waits, in sender, TAR and CNTR. A response that came.
    Unmatched,
    // 24: a capture of more than 65,536 octets. Salvaging.
    CaptureTooLong,
    // 25: a record asked for with no slots, or with more than five. Making a record.
    SlotNumber,
}

impl Refusal {
    // The number that the table of refusals gives to each.
    pub fn number(self) -> u8
        ensures { result ≡ refusal_number self }
    {
        match self {
            Refusal::BufferOrRecord => 1,
            Refusal::InputLength => 2,
            Refusal::HeaderOverrun => 3,
            Refusal::HeaderElement => 4,
            Refusal::WrongIdentifier => 5,
            Refusal::TooManyParts => 6,
            Refusal::OtherTotal => 7,
            Refusal::OtherOctets => 8,
            Refusal::MalformedPacket => 9,
            Refusal::CipherMismatch => 10,
            Refusal::PacketHeader => 11,
            Refusal::PacketTooLong => 12,
            Refusal::ReferenceWidth => 13,
            Refusal::PartNumber => 14,
            Refusal::CheckMismatch => 15,
            Refusal::ReportCapacity => 16,
            Refusal::ReservedSpi => 17,
            Refusal::BeatLimit => 18,
            Refusal::CounterTable => 19,
            Refusal::UnknownEdition => 20,
            Refusal::TableFull => 21,
            Refusal::AlreadySent => 22,
            Refusal::Unmatched => 23,
            Refusal::CaptureTooLong => 24,
            Refusal::SlotNumber => 25,
        }
    }
}

// The security parameters of a command.
#[derive(Clone, Copy, PartialEq, Eq)]
pub struct Spi(pub u8, pub u8);

// The application that a packet is for.
#[derive(Clone, Copy, PartialEq, Eq)]
pub struct Tar(pub u8, pub u8, pub u8);

// The counter of a packet.
#[derive(Clone, Copy, PartialEq, Eq)]
pub struct Cntr(pub u8, pub u8, pub u8, pub u8, pub u8);

// A plain command's fields from its counter on: the counters, and how long the check field and the secured data are.
#[derive(Clone, Copy)]
pub struct PlainCommand {
    pub cntr: Cntr,
    pub pcntr: u8,
    pub check_length: usize,
    pub data_length: usize,
}

// A plain response's fields from its counter on.
#[derive(Clone, Copy)]
pub struct PlainResponse {
    pub cntr: Cntr,
    pub pcntr: u8,
    pub status: u8,
    pub check_length: usize,
    pub data_length: usize,
}

// A ciphered body is opaque from its counter on: the header length that the packet states, and how many octets are opaque.
#[derive(Clone, Copy)]
pub struct Opaque {
    pub header_length: u8,
    pub opaque_length: usize,
}

#[derive(Clone, Copy)]
pub enum CommandBody {
    Plain(PlainCommand),
    Ciphered(Opaque),
}

#[derive(Clone, Copy)]
pub enum ResponseBody {
    Plain(PlainResponse),
    Ciphered(Opaque),
}

// What is before the counter of a command, in the clear also if the body is ciphered.
#[derive(Clone, Copy)]
pub struct Clear {
    pub spi: Spi,
    pub kic: u8,
    pub kid: u8,
    pub tar: Tar,
}

// A parsed command: its fields in the clear, and one of two bodies.
#[derive(Clone, Copy)]
pub struct Command {
    pub clear: Clear,
    pub body: CommandBody,
}

// A parsed response.
#[derive(Clone, Copy)]
pub struct Response {
    pub tar: Tar,
    pub body: ResponseBody,
}

// ---- arrivals
// The serial number of a page, and its message identifier: both two octets, each a number of its own sort throughout.
#[derive(Clone, Copy, PartialEq, Eq)]
pub struct SerialNumber(pub u16);

#[derive(Clone, Copy, PartialEq, Eq)]
pub struct MessageIdentifier(pub u16);

// What tells a series from every other. A short message's key has a sender, a reference and its width, 8 or 16; a page's key has width 0,
// a serial number and a message identifier. What a key does not use is zero.
#[derive(Clone, Copy, PartialEq, Eq)]
pub struct Key {
    pub sender: u32,
    pub width: u8,
    pub reference: u16,
    pub serial: SerialNumber,
    pub identifier: MessageIdentifier,
}

// What a message or a page brings. The octets from `start` on are the part's own.
#[derive(Clone, Copy)]
pub enum Arrival {
    Single {
        start: usize,
    },
    Part {
        key: Key,
        total: u8,
        number: u8,
        start: usize,
    },
}

// ---- series
// The most slots of a record, which it has if its maker names no number; and the parts of a slot.
pub const SLOTS: usize = 5;

pub const PARTS: usize = 16;

// What is known of one series. Rank 0: the slot is free, and all of it is zero. Rank 1: its series is the most recent. `beats` is the count of
// beats since it was last touched, 0 to 254.
#[derive(Clone, Copy)]
pub struct Slot {
    pub rank: u8,
    pub beats: u8,
    pub key: Key,
    pub total: u8,
    pub lengths: [u8; PARTS],
    pub held: [bool; PARTS],
}

// The unfinished series of one kind. The first `count` slots are the record's own, 1 to 5 of them; those past them are all zero.
#[derive(Clone, Copy)]
pub struct Record {
    pub kind: Kind,
    pub count: u8,
    pub slots: [Slot; SLOTS],
}

// The answer, and the record. Beside a refusal it is one without slots, all zero, which no call accepts.
#[derive(Clone, Copy)]
pub struct Made {
    pub answer: Result<(), Refusal>,
    pub record: Record,
}

// What taking a message or a page answers.
#[derive(Clone, Copy)]
pub enum Answer {
    Kept { slot: usize, displaced: bool },
    HeldAlready { slot: usize },
    Packet { length: usize },
}

// The answer, and the record as it is afterwards.
#[derive(Clone, Copy)]
pub struct Taken {
    pub answer: Result<Answer, Refusal>,
    pub record: Record,
}

// The answer, and the record as it is afterwards.
#[derive(Clone, Copy)]
pub struct Beaten {
    pub answer: Result<u8, Refusal>,
    pub record: Record,
}

// ---- the plain engine
// What is not in the entries of a log: the kind of the packets, the number of slots, and how many entries there are at the start of the lent octets. It
// goes by value as a record does, so the lent octets are entries and nothing else, and no octet has to be read as a kind.
#[derive(Clone, Copy)]
pub struct Log {
    pub kind: Kind,
    pub slots: u8,
    pub count: u8,
}

// The answer, and the log. Beside a refusal it is one without slots, which no call accepts.
#[derive(Clone, Copy)]
pub struct LogMade {
    pub answer: Result<(), Refusal>,
    pub log: Log,
}

// The answer, and the log as it is afterwards.
#[derive(Clone, Copy)]
pub struct LogTaken {
    pub answer: Result<Answer, Refusal>,
    pub log: Log,
}

#[derive(Clone, Copy)]
pub struct LogBeaten {
    pub answer: Result<u8, Refusal>,
    pub log: Log,
}

// ---- sizes of what a caller lends
// The most octets of a packet: the output of taking, the buffer of building.
pub const PACKET_OCTETS: usize = 2142;

// The buffer of checksum octets: the longest packet, and three octets before it.
pub const CHECKSUM_OCTETS: usize = PACKET_OCTETS + 3;

// The cells of one slot: one for each part, as long as a part can be. A record needs as many times these as it has slots.
pub const SLOT_OCTETS: usize = PARTS * PART_OCTETS;

// The cells of a record with five slots.
pub const CELLS_OCTETS: usize = SLOTS * SLOT_OCTETS;

// The octets of a state, which is a record in place: a head of three, and 46 for each of five slots.
pub const STATE_OCTETS: usize = 233;

// The octets of an entry of a log, those before its part, and the octets of a log: room for 80 entries, of which at most 75 ever stand.
pub const ENTRY_OCTETS: usize = 151;

pub const ENTRY_HEAD: usize = 17;

pub const LOG_ENTRIES: usize = 80;

pub const LOG_OCTETS: usize = LOG_ENTRIES * ENTRY_OCTETS;

// The most octets of user data, and of a part of a short message behind its header; those of a page, and of its content.

pub const USER_DATA_OCTETS: usize = 140;

pub const PART_OCTETS: usize = 134;

pub const PAGE_OCTETS: usize = 88;

pub const PAGE_CONTENT: usize = 82;

// The most octets of a USSD string, which is the buffer of writing one, and of its UM behind the PFI; and the data coding scheme of binary data.
pub const USSD_OCTETS: usize = 160;

pub const UM_OCTETS: usize = 159;

pub const USSD_DCS: u8 = 0x96;

// ---- counters
// The most applications whose counters a table holds.
pub const COUNTER_ENTRIES: usize = 16;

// The counter that is stored for an application.
#[derive(Clone, Copy)]
pub struct CounterEntry {
    pub tar: Tar,
    pub cntr: Cntr,
}

// The stored counters. The first `count` entries are in use, each for another application; the others count for nothing.
#[derive(Clone, Copy)]
pub struct Counters {
    pub count: u8,
    pub entries: [CounterEntry; COUNTER_ENTRIES],
}

// The answer, and the table as it is afterwards.
#[derive(Clone, Copy)]
pub struct JudgedCounter {
    pub answer: Result<u8, Refusal>,
    pub counters: Counters,
}

// ---- outstanding commands
// The most commands that a table holds.
pub const OUTSTANDING_ENTRIES: usize = 8;

// A command that was sent: the number that the caller gives to the card that answers it, as the sender of what comes from there, and the
// command's application and counter.
#[derive(Clone, Copy, PartialEq, Eq)]
pub struct SentCommand {
    pub sender: u32,
    pub tar: Tar,
    pub cntr: Cntr,
}

// The commands that wait for their response. The first `count` entries are in use, no two of them equal; the others count for nothing.
#[derive(Clone, Copy)]
pub struct Outstanding {
    pub count: u8,
    pub entries: [SentCommand; OUTSTANDING_ENTRIES],
}

// The answer, and the table as it is afterwards.
#[derive(Clone, Copy)]
pub struct AfterSending {
    pub answer: Result<(), Refusal>,
    pub outstanding: Outstanding,
}

// What a response that came answers: it closed its command, or the command waits for the complete response.
#[derive(Clone, Copy, PartialEq, Eq)]
pub enum Closing {
    Closed,
    Waiting,
}

// The answer, and the table as it is afterwards.
#[derive(Clone, Copy)]
pub struct AfterResponse {
    pub answer: Result<Closing, Refusal>,
    pub outstanding: Outstanding,
}

// ---- splitting
// What writing one part answers: how many parts the packet has, and how many octets are at the buffer's start.
#[derive(Clone, Copy)]
pub struct WrittenPart {
    pub total: usize,
    pub length: usize,
}

// ---- reporting
// What goes out when a response is there: nothing; a delivery report that carries it; a delivery report that announces it, and then the response
// as submitted parts; or these alone. `length` is how many octets of the report are at the buffer's start.
#[derive(Clone, Copy)]
pub enum Outgoing {
    Nothing,
    Report { length: usize },
    Announcement { length: usize },
    Submit,
}

// The editions of the text that a card follows: they differ in the status that announces a response.
// An edition stays a number, since a caller may name one that is not known here, which reporting refuses by 20.
pub const OLD_EDITION: u32 = 0;

pub const PRESENT_EDITION: u32 = 1;

// ---- captures
// The most octets of a capture that can be salvaged, and how many octets of a record are before its own: its mark, its kind and its length.
pub const CAPTURE_OCTETS: usize = 65536;

pub const CAPTURE_HEAD: usize = 4;

// A longest run of octets that salvaging skips: its first position, how many octets it has, and the position behind it. If no octet is skipped,
// the count is 0.
#[derive(Clone, Copy)]
pub struct SkippedRun {
    pub first: usize,
    pub count: usize,
    pub next: usize,
}

// What octets are as one record of a capture, by itself. Its own octets begin at `start`.
#[derive(Clone, Copy)]
pub enum Captured {
    UserData { start: usize },
    Page { start: usize },
}

// ---- numbers on the air
// Two octets of a 16-bit number, the high one first, as they are on the air.
#[derive(Clone, Copy, PartialEq, Eq)]
pub struct Pair(pub u8, pub u8);
