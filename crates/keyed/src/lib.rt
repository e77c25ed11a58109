#![tactic(auto)]
// The octets of a key, wherever they are: in a state of the card's engine and in an entry of a log. This crate has the rule alone.
