// Theorems about every public call: each answer exactly if it is due, and what an answer's number says of lent memory. No code.
#![tactic(auto)]

pub const OUTCOMES: u32 = 9;
