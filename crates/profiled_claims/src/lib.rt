// Calls asked as profile: what 11 is given for, that 8 is not given, and demand 3. Theorems alone.
#![tactic(auto)]

pub const REQUEST: u32 = 12;
