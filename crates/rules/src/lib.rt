// The records of the link and the rules of its two stations. What each call of either end answers and moves stands
// in specs/, as definitions; the code here is of the records alone.
#![tactic(auto)]

pub mod link;
pub mod message;
mod printing;
pub mod records;
pub mod station;
pub mod telegram;
