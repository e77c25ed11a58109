#![tactic(auto)]
// The record of unfinished series: a fresh one, which of its slots are free or bear a key, and their order of recency.
pub mod find;
pub mod order;
