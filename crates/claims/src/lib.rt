// Demand 3 of the public calls, with nothing left to suppose.
#![tactic(auto)]

pub const DEMAND: u32 = 3;
