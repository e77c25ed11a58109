#![tactic(auto)]
// Unfinished series: a record of slots goes in and comes back by value, the parts lie in cells that the caller lends.
pub mod take;
