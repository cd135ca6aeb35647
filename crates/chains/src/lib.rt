// Demand 3 is not vacuous on lent tables: a chain of calls and two pages that agree, computed. No code.
#![tactic(auto)]

pub const CHAINS: u32 = 3;
