// Which nodes the candidate list names, and how many. No code.
#![tactic(auto)]

pub const LISTING: u32 = 1;
