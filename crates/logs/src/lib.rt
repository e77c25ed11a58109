#![tactic(auto)]
// The log of the plain engine (02 [9]), as it is read: what an entry says, the searches, and the test of a log. Every call here takes every log and every
// place in it; nothing is written.
pub mod entries;
pub mod sound;
pub mod walks;
