#![tactic(auto)]
// Single USSD messages (02, [7]; 000, 6.1 and annex A): a command in a USSD string. How its lengths are coded is said here; what is behind them is
// read, judged and shown by `packet` and `checksum`, as that of a packet is. `ussd_write` writes strings.
pub mod read;
pub mod sum;
pub mod um;
