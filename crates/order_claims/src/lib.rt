// Rows keep their order at exit of the six calls that leave rows: theorems in specs/. No code.
#![tactic(auto)]

pub const CALLS: u32 = 6;
