// Theorems: rows keep their order on pages that meet eight conditions at every node. No code.
#![tactic(auto)]

pub const CONDITIONS: u32 = 8;
