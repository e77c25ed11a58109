#![tactic(auto)]
// Between a line's words and the library's types: the fields in a line's octets (`fields`, `slot`) and what they mean (`meaning`), what a line
// leaves of the tables of counters and of outstanding commands (`counters`, `commands`), and answers as rows (`rows`, `part`).
pub mod commands;
pub mod counting;
pub mod fields;
pub mod meaning;
pub mod part;
pub mod rows;
pub mod slot;
