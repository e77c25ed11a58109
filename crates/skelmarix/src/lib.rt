#![tactic(auto)]
// Skelmarix: secured packets over short messages, cell broadcast pages and USSD strings. What a user names of the crates below, and nothing of its own; the
// calls that only these crates make of one another stay with them.

// Sizes of what a caller lends, the most slots of a record, the entries of a table of counters and of one of outstanding commands, and what is before the
// octets of a captured record.
pub use types::{
    CAPTURE_HEAD, CAPTURE_OCTETS, CELLS_OCTETS, CHECKSUM_OCTETS, COUNTER_ENTRIES, ENTRY_OCTETS,
    LOG_ENTRIES, LOG_OCTETS, OUTSTANDING_ENTRIES, PACKET_OCTETS, PAGE_OCTETS, SLOT_OCTETS, SLOTS,
    STATE_OCTETS, UM_OCTETS, USER_DATA_OCTETS, USSD_OCTETS,
};

// What an answer is about: the octets at the start of the buffer that was lent.
pub use octets::given::{packet_in, part_in, written_in};

// Packets: reading, showing, building, the octets of a checksum.
pub use build::{build_ciphered_command, build_ciphered_response, build_command, build_response};
pub use checksum::{command_checksum, response_checksum};
pub use packet::read::{parse_command, parse_response, well_formed as packet_formed};
pub use packet::show::{
    command_check, command_data, command_opaque, response_check, response_data, response_opaque,
};
pub use types::{
    Clear, Cntr, Command, CommandBody, Kind, Opaque, PlainCommand, PlainResponse, Refusal,
    Response, ResponseBody, Spi, Tar,
};

// USSD strings: a command read, shown and written, the octets of its checksum, and the data coding scheme that it comes with.
pub use types::USSD_DCS;
pub use ussd::read::{read_ussd, ussd_check, ussd_data, ussd_opaque};
pub use ussd::sum::ussd_checksum;
pub use ussd_write::{write_ciphered_ussd, write_ussd};

// Counters: the counter of a command, judged against the one that is stored.
pub use counters::{judge_counter, no_counters};
pub use types::{CounterEntry, Counters, JudgedCounter};

// Arrivals: what one message or page brings.
pub use arrival::message::read_message;
pub use arrival::own_octets;
pub use arrival::page::read_page;
pub use types::{Arrival, Key, MessageIdentifier, SerialNumber};

// Series: the record, taking what arrives, and the beat, which gives up what was silent too long.
pub use beats::beat;
pub use formed::record_formed;
pub use series::take::{take_message, take_page};
pub use slots::find::{fresh as fresh_record, fresh_with as fresh_record_with};
pub use types::{Answer, Beaten, Made, Record, Slot, Taken};

// The same in place, on the octets of a state that the caller lends: for a card. The record that a state holds, and a record written as a state.
pub use card::{take_message as state_take_message, take_page as state_take_page};
pub use layout::known::fresh as fresh_state;
pub use sound::beat::beat as state_beat;
pub use sound::state_formed;
pub use whole::put::state_put;
pub use whole::record::state_record;

// The same on a log of accepted parts, which anybody can follow: for a bench (02 [9]).
pub use copies::{beat_log as log_beat, fresh_log};
pub use logs::sound::state_formed as log_formed;
pub use readoff::log_record;
pub use second::{take_message as log_take_message, take_page as log_take_page};
pub use types::{Log, LogBeaten, LogMade, LogTaken};

// Splitting: one part a call.
pub use split::{write_message, write_page};
pub use types::WrittenPart;

// Reporting: what goes out of a response, the delivery report, the editions, and whether a response says that another follows.
pub use report::{response_announces, write_report};
pub use types::{OLD_EDITION, Outgoing, PRESENT_EDITION};

// Outstanding commands, server side: which commands were sent, and which of them a response closes.
pub use gateway::{command_sent, no_commands, response_came};
pub use types::{AfterResponse, AfterSending, Closing, Outstanding, SentCommand};

// Captures: what is sound of one, the runs that are skipped, and one record by itself.
pub use capture::{next_skipped, read_captured, salvage};
pub use types::{Captured, SkippedRun};

// Octets: the first of a slice, some put into a buffer, two slices compared, a number as the pair that is on the air.
pub use octets::{
    number_of, pair_of, put as put_octets, same as same_octets, up_to as first_octets,
};
pub use types::Pair;
