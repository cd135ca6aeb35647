// The bill in whole pixels, in both engines: computed.
#![tactic(auto)]

pub const REQUEST: u32 = 12;
