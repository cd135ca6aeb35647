// Theorems about margins, over the definitions of crate steps.
#![tactic(auto)]

pub const REQUEST: u32 = 7;
