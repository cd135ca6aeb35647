// Laws of `scan`, the lowest place that a test takes, and of the unit words; no code.
#![tactic(auto)]

pub const FIELDS: u32 = 22;
