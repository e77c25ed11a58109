#![tactic(auto)]
// Secured packets (TS 31.115, TS 102 225): their layout, what is behind their lengths, reading them, and showing their parts.
pub mod behind;
pub mod layout;
pub mod read;
pub mod show;
