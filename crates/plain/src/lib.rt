#![tactic(auto)]
// The plain engine (02 [9]): its whole state is one log of accepted parts in order of arrival. Each search walks over the log from its start, and a
// series is dropped by copying the log without it. This crate has its rules and laws; its types are in `types`, its code is in `log`, `copies`, `second` and
// `readoff`.
