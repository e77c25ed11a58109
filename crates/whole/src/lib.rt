#![tactic(auto)]
// The record of a state as a value, and a record written as a state: for a server that keeps records, and for whoever shows what a state holds.
pub mod put;
pub mod record;
