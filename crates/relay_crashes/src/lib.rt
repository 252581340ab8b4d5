//! What a crash leaves of the relay, and what holds across crashes. There is no code: each function
//! has an empty body, and its contract is what is proved.
#![tactic(auto)]

pub mod crashes;
pub mod rows;
