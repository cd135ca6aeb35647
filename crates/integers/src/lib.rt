// The engine over whole numbers: definitions, no code.
#![tactic(auto)]

pub const REQUEST: u32 = 12;
