// The table of the kinds of lines. A row is a name behind the names of an earlier row, and the sorts of the words behind it; the rule
// (specs/Table.antt) has it in words.
ghost use Rattle.std.specs.Prelude.{◌≡◌, ◌≤◌, ◌<◌, ◌==◌, get_or, position};
ghost use Rattle.words.specs.Table.{row_count, keys, row_of, all_sorts, most_of};

// The sorts of words (specs/Table.antt) that reading tells apart: the line's end, a name, the parts of a slot, and octets, from this one on.
pub(crate) const END: u8 = 0;

pub(crate) const NAME: u8 = 1;

pub(crate) const SLOT_PARTS: u8 = 15;

pub(crate) const ANY: u8 = 32;

// The rows that lines are told apart by. They are numbers, and no enum, since the rule `row_of` and what the crates above promise give rows as numbers.
pub const MESSAGE: usize = 1;

pub const FRESH_RESPONSE: usize = 5;

pub const FILL: usize = 6;

pub const LEND_CELLS: usize = 8;

pub const LEND_RIGHT: usize = 11;

pub const NUMBER: usize = 12;

pub const SLOT: usize = 13;

pub const RECORD: usize = 14;

pub const FORMED: usize = 15;

pub const CELLS: usize = 16;

pub const BUFFER: usize = 18;

pub const COMMAND: usize = 19;

pub const CIPHERED_RESPONSE: usize = 22;

pub const SHOW_COMMAND: usize = 24;

pub const SHOW_CIPHERED: usize = 27;

pub const SUM_COMMAND: usize = 29;

pub const SUM_CIPHERED: usize = 32;

pub const BUILD_COMMAND: usize = 36;

pub const BUILD_CIPHERED_COMMAND: usize = 37;

pub const BUILD_RESPONSE: usize = 38;

pub const BUILD_CIPHERED_RESPONSE: usize = 39;

pub const WRITE_RESPONSE: usize = 42;

pub const WRITE_PAGE: usize = 43;

pub const READ_COMMAND: usize = 45;

pub const READ_RESPONSE: usize = 46;

pub const READ_PAGE_RESPONSE: usize = 49;

pub const SLOTS: usize = 50;

pub const REPORT: usize = 51;

pub const ANNOUNCES: usize = 52;

pub const COUNTER: usize = 53;

pub const COUNTERS: usize = 54;

pub const JUDGE: usize = 55;

pub const BEAT: usize = 56;

pub const SENT: usize = 57;

pub const ANSWERED: usize = 58;

pub const OUTSTANDING: usize = 59;

pub const CAPTURED: usize = 60;

pub const READ_USSD: usize = 62;

pub const SHOW_USSD: usize = 63;

pub const SUM_USSD: usize = 64;

pub const WRITE_USSD: usize = 66;

pub const WRITE_CIPHERED_USSD: usize = 67;

pub const ENGINE_FIRST: usize = 69;

pub const ENGINE_BOTH: usize = 72;

pub const LEND_LOG: usize = 73;

pub const ENTRY: usize = 74;

pub const ENTRIES: usize = 75;

// A row: its key, which is its earlier row and its name, and the sorts of the words that follow, six bits each, the first lowest. Its fields have
// no names so that a row is a line.
#[derive(Clone, Copy)]
struct Row(u64, u64);

const ROWS: [Row; 76] = [
    Row(0, 0x1), // where a line begins, which stands for none
    Row(14146962661, 0x824), // `message`
    Row(525541, 0x20), // `page`
    Row(6887016, 0x1), // `fresh`
    Row(108086394795492804, 0x12), // `fresh command`
    Row(108087015555709541, 0x12), // `fresh response`
    Row(206220, 0x21), // `fill`
    Row(398788, 0x1), // `lend`
    Row(252201579136070035, 0x4), // `lend cells`
    Row(252201579658756788, 0x4), // `lend output`
    Row(252201579222079666, 0x4), // `lend buffer`
    Row(252201579151924500, 0x0), // `lend right`
    Row(492210354, 0x0), // `number`
    Row(635380, 0x3C58A20C5905146), // `slot`
    Row(609336900, 0x0), // `record`
    Row(217658532, 0x0), // `formed`
    Row(3322259, 0x82), // `cells`
    Row(526009012, 0x82), // `output`
    Row(89331890, 0x82), // `buffer`
    Row(3738600900, 0x20), // `command`
    Row(624498817637, 0x1), // `response`
    Row(720575940396451118, 0x20), // `response plain`
    Row(720576053667612836, 0x20), // `response ciphered`
    Row(631287, 0x1), // `show`
    Row(828662335174772164, 0x20), // `show command`
    Row(828662955934988901, 0x1), // `show response`
    Row(900719925491270958, 0x20), // `show response plain`
    Row(900720038762432676, 0x20), // `show response ciphered`
    Row(111840448173, 0x1), // `checksum`
    Row(1008806320269592004, 0x20), // `checksum command`
    Row(1008806941029808741, 0x1), // `checksum response`
    Row(1080863910586090798, 0x20), // `checksum response plain`
    Row(1080864023857252516, 0x20), // `checksum response ciphered`
    Row(2794884, 0x1), // `build`
    Row(1188950305364411844, 0x1), // `build command`
    Row(1188950926124628581, 0x1), // `build response`
    Row(1224979098661946670, 0x8208658E1862), // `build command plain`
    Row(1224979211933108388, 0x8028E1862), // `build command ciphered`
    Row(1261007895680910638, 0x820861963), // `build response plain`
    Row(1261008008952072356, 0x200A3), // `build response ciphered`
    Row(24716933, 0x1), // `write`
    Row(1441151884497159620, 0x802082), // `write command`
    Row(1441152505257376357, 0x802082), // `write response`
    Row(1441151880759084261, 0x200A18A2), // `write page`
    Row(594980, 0x1), // `read`
    Row(1585267072573015492, 0x824), // `read command`
    Row(1585267693333232229, 0x824), // `read response`
    Row(1585267068834940133, 0x1), // `read page`
    Row(1693353463629907396, 0x20), // `read page command`
    Row(1693354084390124133, 0x20), // `read page response`
    Row(20332179, 0x5), // `slots`
    Row(609762900, 0x4A00A2), // `report`
    Row(1596106149043, 0x20), // `announces`
    Row(3747041458, 0x258C7), // `counter`
    Row(119905326675, 0x15), // `counters`
    Row(11178213, 0x20), // `judge`
    Row(70708, 0x5), // `beat`
    Row(628180, 0x258E4), // `sent`
    Row(50053957796, 0x824), // `answered`
    Row(17650035007301063, 0x963D15), // `outstanding`
    Row(104711506084, 0x824), // `captured`
    Row(708196, 0x1), // `ussd`
    Row(2197756618157397028, 0x20861), // `ussd read`
    Row(828662331436879460, 0x20861), // `show ussd`
    Row(2197756729997250221, 0x20), // `ussd checksum`
    Row(2197756618181518981, 0x61), // `ussd write`
    Row(2341871806249829678, 0x8208658E1862), // `ussd write plain`
    Row(2341871919520991396, 0x8028E1862), // `ussd write ciphered`
    Row(182691269, 0x1), // `engine`
    Row(2449958197296155252, 0x0), // `engine first`
    Row(2449958197289649732, 0x0), // `engine card`
    Row(2449958197306721582, 0x0), // `engine plain`
    Row(2449958197289631368, 0x0), // `engine both`
    Row(252201579132760551, 0x4), // `lend log`
    Row(5722713, 0x805), // `entry`
    Row(5860041907, 0x5), // `entries`
];

// The greatest number of each sort.
const MOSTS: [u64; 8] = [0, 36028797018963967, 4294967295, 65535, 16384, 255, 4, 15];

// The first row of a key.
fn row_with(key: u64) -> Option<usize>
    ensures { result ≡ position (λ r. r.0 == key) ROWS }
{
    ROWS.iter().position(|row| row.0 == key)
}

// The row of a key; 0 if there is none.
pub(crate) fn find(key: u64) -> usize
    ensures { (result ≡ row_of key) × (result < row_count) }
{
    row_with(key).unwrap_or(0)
}

// The sorts of the words behind a row.
pub(crate) fn sorts_of(row: usize) -> u64
    requires { row < row_count }
    ensures { result ≡ get_or all_sorts row 0 }
{
    ROWS[row].1
}

// The greatest number of a sort.
pub(crate) fn most_of(sort: u8) -> u64
    ensures { (result ≡ most_of sort) × (result ≤ 36028797018963967) }
{
    MOSTS[(sort % 8) as usize]
}
