// Many packets by one call: the state is judged once, by the tick that comes first, and no packet after it judges it again.
#![tactic(auto)]

pub mod burst;
pub mod counters;
pub mod told;
pub mod trace;
pub mod way;
