// Theorems about the number and place of an answer, over the definitions of crate steps. No code.
#![tactic(auto)]

pub const NUMBERS: u32 = 9;
